// As many jobs and as many masks as a sheet may have, and one more.
use crate::answer::{Answer, Case, check_answer, check_read};
use crate::sample::*;
use kinds::points::Points;
use sheets::reader::read;
use std::alloc::{AllocError, Global};
use std::test::Fail;

// What stands behind 256 jobs, and the answer. The 257th record stands at byte 7 + 256 * 13 = 3,335.
const BEHIND: [Case; 10] = [
    Case {
        what: "nothing",
        records: &[],
        answer: Answer::Jobs(256),
    },
    Case {
        what: "job 257",
        records: &[&[3, 0, 10, 1, 1, 0, 0, 0, 1, 0, 0, 0, 1]],
        answer: Answer::Table(11, 3335, 257),
    },
    Case {
        what: "job 65,535",
        records: &[&[3, 0, 10, 255, 255, 0, 0, 0, 1, 0, 0, 0, 1]],
        answer: Answer::Table(11, 3335, 65_535),
    },
    Case {
        what: "jobs 257 and 258",
        records: &[
            &[3, 0, 10, 1, 1, 0, 0, 0, 1, 0, 0, 0, 1],
            &[3, 0, 10, 1, 2, 0, 0, 0, 1, 0, 0, 0, 1],
        ],
        answer: Answer::Table(11, 3335, 257),
    },
    Case {
        what: "job 0",
        records: &[&[3, 0, 10, 0, 0, 0, 0, 0, 1, 0, 0, 0, 1]],
        answer: Answer::Table(8, 3335, 0),
    },
    Case {
        what: "job 257 with no window",
        records: &[&[3, 0, 10, 1, 1, 0, 1, 0, 1, 0, 0, 0, 1]],
        answer: Answer::Table(9, 3335, 257),
    },
    Case {
        what: "job 1 again",
        records: &[&[3, 0, 10, 0, 1, 0, 0, 0, 1, 0, 0, 0, 1]],
        answer: Answer::Table(10, 3335, 1),
    },
    Case {
        what: "job 256 again",
        records: &[&[3, 0, 10, 1, 0, 0, 0, 0, 1, 0, 0, 0, 1]],
        answer: Answer::Table(10, 3335, 256),
    },
    Case {
        what: "job 257 with no weight",
        records: &[&[3, 0, 10, 1, 1, 0, 0, 0, 1, 0, 0, 0, 0]],
        answer: Answer::Sheet(7, 3335),
    },
    Case {
        what: "job 257 cut",
        records: &[&[3, 0, 10, 1, 1, 0, 0, 0, 1, 0, 0, 0]],
        answer: Answer::Sheet(1, 3335),
    },
];

// A sheet of the jobs 1 to 256, each with one point and the window of slot 0.
fn full_sheet(heap: Global) -> Result<Vec<u8>, AllocError> {
    let mut sheet = joined(heap, &[KIND, NO_SLOTS])?;
    for number in 1..=256u16 {
        let [high, low] = number.to_be_bytes();
        sheet.extend_from_slice(&[3, 0, 10, high, low, 0, 0, 0, 1, 0, 0, 0, 1])?;
    }
    Ok(sheet)
}

#[test]
fn jobs_behind_256(rt: HostRuntime) -> Result<(), Fail> {
    let heap = rt.alloc();
    for case in &BEHIND {
        let mut sheet = full_sheet(heap)?;
        sheet.extend_from_slice(&joined(heap, case.records)?)?;
        check_answer::<Points>(case.what, &sheet, case.answer)?;
    }
    Ok(())
}

#[test]
fn jobs_up_to_256(rt: HostRuntime) -> Result<(), Fail> {
    let sheet = full_sheet(rt.alloc())?;
    let read = read::<Points>(&sheet)?;
    for k in 0..256u16 {
        assert_eq!(rt;
            read.job(usize::from(k)),
            Some(points_job(k + 1, 0, 1, 1)?),
            "{}",
            k
        );
    }
    assert_eq!(rt; read.job(256), None);
    Ok(())
}

// 1,024 masks are read; behind them the next record stands at byte 1,031. 1,025 masks are refused.
#[test]
fn masks_up_to_1024(rt: HostRuntime) -> Result<(), Fail> {
    let heap = rt.alloc();
    let masks = [170; 1024];
    let mut sheet = joined(heap, &[KIND, &[2, 4, 0], &masks])?;
    check_read::<Points>("1,024 masks", &sheet, &masks, &[])?;
    sheet.extend_from_slice(&[4, 0, 0])?;
    check_answer::<Points>("a byte behind them", &sheet, Answer::Sheet(2, 1031))?;
    let more = joined(heap, &[KIND, &[2, 4, 1], &masks, &[170]])?;
    check_answer::<Points>("1,025 masks", &more, Answer::Sheet(5, 4))
}
