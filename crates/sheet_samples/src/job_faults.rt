// Sheets of points with one job that has no weight, or that the table refuses. The number and the byte are those of the first
// fault: weight, number 0, window, number already in the sheet. Behind the kind and a calendar of no slots the job records stand
// at the bytes 7, 20 and 33.
use crate::answer::{Answer, Case, check_cases};
use crate::sample::*;
use kinds::points::Points;
use std::test::Fail;

const WEIGHTS: [Case; 6] = [
    Case {
        what: "no points",
        records: &[KIND, NO_SLOTS, &[3, 0, 10, 0, 1, 0, 0, 0, 1, 0, 0, 0, 0]],
        answer: Answer::Sheet(7, 7),
    },
    Case {
        what: "no points in the second job",
        records: &[
            KIND,
            NO_SLOTS,
            FIRST,
            &[3, 0, 10, 0, 2, 0, 0, 0, 1, 0, 0, 0, 0],
        ],
        answer: Answer::Sheet(7, 20),
    },
    Case {
        what: "no weight wins over number 0",
        records: &[KIND, NO_SLOTS, &[3, 0, 10, 0, 0, 0, 0, 0, 1, 0, 0, 0, 0]],
        answer: Answer::Sheet(7, 7),
    },
    Case {
        what: "no weight wins over no window",
        records: &[KIND, NO_SLOTS, &[3, 0, 10, 0, 1, 0, 1, 0, 1, 0, 0, 0, 0]],
        answer: Answer::Sheet(7, 7),
    },
    Case {
        what: "no weight wins over a number that is taken",
        records: &[
            KIND,
            NO_SLOTS,
            FIRST,
            &[3, 0, 10, 0, 1, 0, 0, 0, 2, 0, 0, 0, 0],
        ],
        answer: Answer::Sheet(7, 20),
    },
    Case {
        what: "points in the highest byte only",
        records: &[KIND, NO_SLOTS, &[3, 0, 10, 0, 1, 0, 0, 0, 1, 1, 0, 0, 0]],
        answer: Answer::Jobs(1),
    },
];

const NUMBERS: [Case; 9] = [
    Case {
        what: "number 0",
        records: &[KIND, NO_SLOTS, &[3, 0, 10, 0, 0, 0, 0, 0, 1, 0, 0, 0, 1]],
        answer: Answer::Table(8, 7, 0),
    },
    Case {
        what: "number 0 in the second job",
        records: &[
            KIND,
            NO_SLOTS,
            FIRST,
            &[3, 0, 10, 0, 0, 0, 0, 0, 1, 0, 0, 0, 1],
        ],
        answer: Answer::Table(8, 20, 0),
    },
    Case {
        what: "number 0 wins over no window",
        records: &[KIND, NO_SLOTS, &[3, 0, 10, 0, 0, 0, 1, 0, 1, 0, 0, 0, 1]],
        answer: Answer::Table(8, 7, 0),
    },
    Case {
        what: "number 256",
        records: &[KIND, NO_SLOTS, &[3, 0, 10, 1, 0, 0, 0, 0, 1, 0, 0, 0, 1]],
        answer: Answer::Jobs(1),
    },
    Case {
        what: "the same job twice",
        records: &[KIND, NO_SLOTS, FIRST, FIRST],
        answer: Answer::Table(10, 20, 1),
    },
    Case {
        what: "a number twice, with another window and weight",
        records: &[
            KIND,
            NO_SLOTS,
            FIRST,
            &[3, 0, 10, 0, 1, 0, 2, 0, 9, 0, 0, 0, 7],
        ],
        answer: Answer::Table(10, 20, 1),
    },
    Case {
        what: "a number again behind another job",
        records: &[KIND, NO_SLOTS, FIRST, SECOND, FIRST],
        answer: Answer::Table(10, 33, 1),
    },
    Case {
        what: "number 258 twice",
        records: &[
            KIND,
            NO_SLOTS,
            &[3, 0, 10, 1, 2, 0, 0, 0, 1, 0, 0, 0, 1],
            &[3, 0, 10, 1, 2, 0, 0, 0, 1, 0, 0, 0, 1],
        ],
        answer: Answer::Table(10, 20, 258),
    },
    Case {
        what: "numbers 258 and 513",
        records: &[
            KIND,
            NO_SLOTS,
            &[3, 0, 10, 1, 2, 0, 0, 0, 1, 0, 0, 0, 1],
            &[3, 0, 10, 2, 1, 0, 0, 0, 1, 0, 0, 0, 1],
        ],
        answer: Answer::Jobs(2),
    },
];

const WINDOWS: [Case; 12] = [
    Case {
        what: "ready at the deadline",
        records: &[KIND, NO_SLOTS, &[3, 0, 10, 0, 5, 0, 3, 0, 3, 0, 0, 0, 1]],
        answer: Answer::Table(9, 7, 5),
    },
    Case {
        what: "ready and deadline 0",
        records: &[KIND, NO_SLOTS, &[3, 0, 10, 0, 5, 0, 0, 0, 0, 0, 0, 0, 1]],
        answer: Answer::Table(9, 7, 5),
    },
    Case {
        what: "ready behind the deadline",
        records: &[KIND, NO_SLOTS, &[3, 0, 10, 0, 5, 0, 4, 0, 3, 0, 0, 0, 1]],
        answer: Answer::Table(9, 7, 5),
    },
    Case {
        what: "ready 256, deadline 255",
        records: &[KIND, NO_SLOTS, &[3, 0, 10, 0, 5, 1, 0, 0, 255, 0, 0, 0, 1]],
        answer: Answer::Table(9, 7, 5),
    },
    Case {
        what: "ready 255, deadline 256",
        records: &[KIND, NO_SLOTS, &[3, 0, 10, 0, 5, 0, 255, 1, 0, 0, 0, 0, 1]],
        answer: Answer::Jobs(1),
    },
    Case {
        what: "ready 1,023, deadline 1,024",
        records: &[KIND, NO_SLOTS, &[3, 0, 10, 0, 5, 3, 255, 4, 0, 0, 0, 0, 1]],
        answer: Answer::Jobs(1),
    },
    Case {
        what: "deadline 1,025",
        records: &[KIND, NO_SLOTS, &[3, 0, 10, 0, 5, 0, 0, 4, 1, 0, 0, 0, 1]],
        answer: Answer::Table(9, 7, 5),
    },
    Case {
        what: "ready 1,024, deadline 1,025",
        records: &[KIND, NO_SLOTS, &[3, 0, 10, 0, 5, 4, 0, 4, 1, 0, 0, 0, 1]],
        answer: Answer::Table(9, 7, 5),
    },
    Case {
        what: "deadline 65,535",
        records: &[
            KIND,
            NO_SLOTS,
            &[3, 0, 10, 0, 5, 0, 0, 255, 255, 0, 0, 0, 1],
        ],
        answer: Answer::Table(9, 7, 5),
    },
    Case {
        what: "no window for job 4,660",
        records: &[KIND, NO_SLOTS, &[3, 0, 10, 18, 52, 0, 1, 0, 1, 0, 0, 0, 1]],
        answer: Answer::Table(9, 7, 4660),
    },
    Case {
        what: "no window wins over a number that is taken",
        records: &[
            KIND,
            NO_SLOTS,
            FIRST,
            &[3, 0, 10, 0, 1, 0, 1, 0, 1, 0, 0, 0, 1],
        ],
        answer: Answer::Table(9, 20, 1),
    },
    Case {
        what: "no window wins over an unknown tag behind it",
        records: &[
            KIND,
            NO_SLOTS,
            &[3, 0, 10, 0, 5, 0, 3, 0, 3, 0, 0, 0, 1],
            &[4, 0, 0],
        ],
        answer: Answer::Table(9, 7, 5),
    },
];

#[test]
fn wrong_jobs(rt: HostRuntime) -> Result<(), Fail> {
    check_cases::<Points>(rt.alloc(), &WEIGHTS)?;
    check_cases::<Points>(rt.alloc(), &NUMBERS)?;
    check_cases::<Points>(rt.alloc(), &WINDOWS)
}
