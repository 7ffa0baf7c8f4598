// The kind that a sheet names, by its first record alone.
use crate::sample::*;
use sheets::fault::{LoadFault, SheetFault};
use sheets::kind::{Kind, kind_of};
use sheets::tag::Tag;
use std::test::Fail;

// The first bytes of a sheet, what there is to them, and the answer that the rules give.
#[derive(Clone, Copy)]
struct Named {
    what: &'static str,
    sheet: &'static [u8],
    answer: Result<Kind, LoadFault>,
}

const NAMED: [Named; 17] = [
    Named {
        what: "points",
        sheet: &[1, 0, 1, 1],
        answer: Ok(Kind::Points),
    },
    Named {
        what: "classed",
        sheet: &[1, 0, 1, 2],
        answer: Ok(Kind::Classed),
    },
    Named {
        what: "shares",
        sheet: &[1, 0, 1, 3],
        answer: Ok(Kind::Share),
    },
    Named {
        what: "what stands behind the kind is not read",
        sheet: &[1, 0, 1, 2, 4],
        answer: Ok(Kind::Classed),
    },
    Named {
        what: "code 0",
        sheet: &[1, 0, 1, 0],
        answer: Err(LoadFault::Sheet(SheetFault::OtherKind, 0)),
    },
    Named {
        what: "code 4",
        sheet: &[1, 0, 1, 4],
        answer: Err(LoadFault::Sheet(SheetFault::OtherKind, 0)),
    },
    Named {
        what: "code 255",
        sheet: &[1, 0, 1, 255],
        answer: Err(LoadFault::Sheet(SheetFault::OtherKind, 0)),
    },
    Named {
        what: "cut at 0",
        sheet: &[],
        answer: Err(LoadFault::Sheet(SheetFault::OutOfOrder, 0)),
    },
    Named {
        what: "cut at 1",
        sheet: &[1],
        answer: Err(LoadFault::Sheet(SheetFault::EndsInside, 0)),
    },
    Named {
        what: "cut at 2",
        sheet: &[1, 0],
        answer: Err(LoadFault::Sheet(SheetFault::EndsInside, 0)),
    },
    Named {
        what: "cut at 3",
        sheet: &[1, 0, 1],
        answer: Err(LoadFault::Sheet(SheetFault::EndsInside, 0)),
    },
    Named {
        what: "a header that is cut wins over its tag",
        sheet: &[4, 0],
        answer: Err(LoadFault::Sheet(SheetFault::EndsInside, 0)),
    },
    Named {
        what: "tag 0",
        sheet: &[0, 0, 1, 1],
        answer: Err(LoadFault::Sheet(SheetFault::UnknownTag, 0)),
    },
    Named {
        what: "tag 4",
        sheet: &[4, 0, 1, 1],
        answer: Err(LoadFault::Sheet(SheetFault::UnknownTag, 0)),
    },
    Named {
        what: "tag 2",
        sheet: &[2, 0, 1, 1],
        answer: Err(LoadFault::Sheet(SheetFault::OutOfOrder, 0)),
    },
    Named {
        what: "a kind of 0 bytes",
        sheet: &[1, 0, 0, 1],
        answer: Err(LoadFault::Sheet(SheetFault::WrongLength, 0)),
    },
    Named {
        what: "a kind of 2 bytes wins over a value that is cut",
        sheet: &[1, 0, 2, 1],
        answer: Err(LoadFault::Sheet(SheetFault::WrongLength, 0)),
    },
];

#[test]
fn kinds_are_named(rt: HostRuntime) -> Result<(), Fail> {
    assert_eq!(rt; kind_of(&joined(rt.alloc(), SAMPLE)?), Ok(Kind::Points));
    for case in &NAMED {
        assert_eq!(rt; kind_of(case.sheet), case.answer, "{}", case.what);
    }
    Ok(())
}

// Each kind by its code, and each tag by its byte.
#[test]
fn codes_and_tags(rt: HostRuntime) -> Result<(), Fail> {
    for (code, kind) in [(1, Kind::Points), (2, Kind::Classed), (3, Kind::Share)] {
        assert_eq!(rt; kind.code(), code);
        assert_eq!(rt; Kind::try_from(code), Ok(kind));
    }
    for (byte, tag) in [(1, Tag::Kind), (2, Tag::Calendar), (3, Tag::Job)] {
        assert_eq!(rt; tag.byte(), byte);
        assert_eq!(rt; Tag::try_from(byte), Ok(tag));
    }
    for byte in [0u8, 4, 255] {
        assert_eq!(rt; Kind::try_from(byte), Err(SheetFault::OtherKind));
        assert_eq!(rt; Tag::try_from(byte), Err(SheetFault::UnknownTag));
    }
    Ok(())
}
