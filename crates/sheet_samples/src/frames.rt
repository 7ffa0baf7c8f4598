// Sheets with one record whose frame or kind code is wrong. The number and the byte are those of the first fault: header, tag,
// order, length, value, kind code. Behind the kind and a calendar of no slots the first job record stands at byte 7, the second
// at byte 20.
use crate::answer::{Answer, Case, check_cases};
use crate::sample::*;
use kinds::points::Points;
use std::test::Fail;

const TAGS: [Case; 9] = [
    Case {
        what: "tag 0 for the kind",
        records: &[&[0, 0, 1, 1]],
        answer: Answer::Sheet(2, 0),
    },
    Case {
        what: "tag 255 for the kind",
        records: &[&[255, 0, 1, 1]],
        answer: Answer::Sheet(2, 0),
    },
    Case {
        what: "tag 4 for the calendar",
        records: &[KIND, &[4, 0, 0]],
        answer: Answer::Sheet(2, 4),
    },
    Case {
        what: "tag 0 for a job",
        records: &[KIND, NO_SLOTS, &[0, 0, 0]],
        answer: Answer::Sheet(2, 7),
    },
    Case {
        what: "tag 4 for a job",
        records: &[KIND, NO_SLOTS, &[4, 0, 1, 1]],
        answer: Answer::Sheet(2, 7),
    },
    Case {
        what: "tag 255 for a job",
        records: &[KIND, NO_SLOTS, &[255, 0, 10, 0, 1, 0, 0, 0, 1, 0, 0, 0, 1]],
        answer: Answer::Sheet(2, 7),
    },
    Case {
        what: "tag 4 after a job",
        records: &[KIND, NO_SLOTS, FIRST, &[4, 0, 0]],
        answer: Answer::Sheet(2, 20),
    },
    Case {
        what: "an unknown tag wins over its length",
        records: &[&[4, 255, 255]],
        answer: Answer::Sheet(2, 0),
    },
    Case {
        what: "a header that is cut wins over its tag",
        records: &[KIND, NO_SLOTS, &[4, 0]],
        answer: Answer::Sheet(1, 7),
    },
];

const ORDER: [Case; 12] = [
    Case {
        what: "the kind twice",
        records: &[KIND, KIND, NO_SLOTS],
        answer: Answer::Sheet(3, 4),
    },
    Case {
        what: "the calendar twice",
        records: &[KIND, NO_SLOTS, NO_SLOTS],
        answer: Answer::Sheet(3, 7),
    },
    Case {
        what: "the calendar before the kind",
        records: &[CALENDAR, KIND],
        answer: Answer::Sheet(3, 0),
    },
    Case {
        what: "a job before the kind",
        records: &[FIRST, KIND, NO_SLOTS],
        answer: Answer::Sheet(3, 0),
    },
    Case {
        what: "a job before the calendar",
        records: &[KIND, FIRST, CALENDAR],
        answer: Answer::Sheet(3, 4),
    },
    Case {
        what: "the kind after the calendar",
        records: &[KIND, NO_SLOTS, KIND],
        answer: Answer::Sheet(3, 7),
    },
    Case {
        what: "the kind after a job",
        records: &[KIND, NO_SLOTS, FIRST, KIND],
        answer: Answer::Sheet(3, 20),
    },
    Case {
        what: "the calendar after a job",
        records: &[KIND, NO_SLOTS, FIRST, NO_SLOTS],
        answer: Answer::Sheet(3, 20),
    },
    Case {
        what: "order wins over length at the kind",
        records: &[&[2, 4, 1]],
        answer: Answer::Sheet(3, 0),
    },
    Case {
        what: "order wins over length at the calendar",
        records: &[KIND, &[1, 0, 2]],
        answer: Answer::Sheet(3, 4),
    },
    Case {
        what: "order wins over length at a job",
        records: &[KIND, NO_SLOTS, &[1, 0, 0]],
        answer: Answer::Sheet(3, 7),
    },
    Case {
        what: "order wins over a value that is cut",
        records: &[KIND, &[3, 0, 10]],
        answer: Answer::Sheet(3, 4),
    },
];

const LENGTHS: [Case; 13] = [
    Case {
        what: "a kind of 0 bytes",
        records: &[&[1, 0, 0], NO_SLOTS],
        answer: Answer::Sheet(5, 0),
    },
    Case {
        what: "a kind of 2 bytes",
        records: &[&[1, 0, 2, 1, 1], NO_SLOTS],
        answer: Answer::Sheet(5, 0),
    },
    Case {
        what: "a kind of 257 bytes",
        records: &[&[1, 1, 1, 1], NO_SLOTS],
        answer: Answer::Sheet(5, 0),
    },
    Case {
        what: "a calendar of 1,025 masks",
        records: &[KIND, &[2, 4, 1]],
        answer: Answer::Sheet(5, 4),
    },
    Case {
        what: "a calendar of 65,535 masks",
        records: &[KIND, &[2, 255, 255]],
        answer: Answer::Sheet(5, 4),
    },
    Case {
        what: "a job of 0 bytes",
        records: &[KIND, NO_SLOTS, &[3, 0, 0]],
        answer: Answer::Sheet(5, 7),
    },
    Case {
        what: "a job of 9 bytes",
        records: &[KIND, NO_SLOTS, &[3, 0, 9, 0, 1, 0, 0, 0, 1, 0, 0, 1]],
        answer: Answer::Sheet(5, 7),
    },
    Case {
        what: "a job of 11 bytes",
        records: &[KIND, NO_SLOTS, &[3, 0, 11, 0, 1, 0, 0, 0, 1, 0, 0, 0, 0, 1]],
        answer: Answer::Sheet(5, 7),
    },
    Case {
        what: "a job of 266 bytes",
        records: &[KIND, NO_SLOTS, &[3, 1, 10, 0, 1, 0, 0, 0, 1, 0, 0, 0, 1]],
        answer: Answer::Sheet(5, 7),
    },
    Case {
        what: "a second job of 9 bytes",
        records: &[KIND, NO_SLOTS, FIRST, &[3, 0, 9, 0, 2, 0, 0, 0, 1, 0, 0, 1]],
        answer: Answer::Sheet(5, 20),
    },
    Case {
        what: "length wins over a value that is cut, at the kind",
        records: &[&[1, 0, 2, 1]],
        answer: Answer::Sheet(5, 0),
    },
    Case {
        what: "length wins over a value that is cut, at a job",
        records: &[KIND, NO_SLOTS, &[3, 0, 11]],
        answer: Answer::Sheet(5, 7),
    },
    Case {
        what: "length wins over the kind code",
        records: &[&[1, 0, 2, 2, 2], NO_SLOTS],
        answer: Answer::Sheet(5, 0),
    },
];

const VALUES: [Case; 9] = [
    Case {
        what: "a kind that is cut",
        records: &[&[1, 0, 1]],
        answer: Answer::Sheet(1, 0),
    },
    Case {
        what: "a calendar of 1,024 masks that is cut",
        records: &[KIND, &[2, 4, 0]],
        answer: Answer::Sheet(1, 4),
    },
    Case {
        what: "a calendar that is one mask short",
        records: &[KIND, &[2, 0, 2, 1]],
        answer: Answer::Sheet(1, 4),
    },
    Case {
        what: "a cut wins over number, window and weight",
        records: &[KIND, NO_SLOTS, &[3, 0, 10, 0, 0, 0, 1, 0, 1, 0, 0, 0]],
        answer: Answer::Sheet(1, 7),
    },
    Case {
        what: "kind code 0",
        records: &[&[1, 0, 1, 0], NO_SLOTS],
        answer: Answer::Sheet(4, 0),
    },
    Case {
        what: "kind code 2",
        records: &[&[1, 0, 1, 2], NO_SLOTS],
        answer: Answer::Sheet(4, 0),
    },
    Case {
        what: "kind code 255",
        records: &[&[1, 0, 1, 255], NO_SLOTS],
        answer: Answer::Sheet(4, 0),
    },
    Case {
        what: "another kind wins over a missing calendar",
        records: &[&[1, 0, 1, 3]],
        answer: Answer::Sheet(4, 0),
    },
    Case {
        what: "another kind wins over an unknown tag behind it",
        records: &[&[1, 0, 1, 2], &[4, 0, 0]],
        answer: Answer::Sheet(4, 0),
    },
];

#[test]
fn wrong_tags_and_order(rt: HostRuntime) -> Result<(), Fail> {
    check_cases::<Points>(rt.alloc(), &TAGS)?;
    check_cases::<Points>(rt.alloc(), &ORDER)
}

#[test]
fn wrong_lengths_and_values(rt: HostRuntime) -> Result<(), Fail> {
    check_cases::<Points>(rt.alloc(), &LENGTHS)?;
    check_cases::<Points>(rt.alloc(), &VALUES)
}
