// Sheets of classed weights and of shares with one job that has no weight, has another length or is refused by the table. The
// first job record stands at byte 7. Classed weights have 3 bytes, so that the second stands at byte 19.
use crate::answer::{Answer, Case, check_cases};
use crate::sample::*;
use kinds::classed::Classed;
use kinds::share::Share;
use std::test::Fail;

const CLASSED: [Case; 11] = [
    Case {
        what: "class 5",
        records: &[
            CLASSED_KIND,
            NO_SLOTS,
            &[3, 0, 9, 0, 1, 0, 0, 0, 1, 5, 0, 1],
        ],
        answer: Answer::Sheet(7, 7),
    },
    Case {
        what: "class 255",
        records: &[
            CLASSED_KIND,
            NO_SLOTS,
            &[3, 0, 9, 0, 1, 0, 0, 0, 1, 255, 0, 1],
        ],
        answer: Answer::Sheet(7, 7),
    },
    Case {
        what: "class 0 with no points",
        records: &[
            CLASSED_KIND,
            NO_SLOTS,
            &[3, 0, 9, 0, 1, 0, 0, 0, 1, 0, 0, 0],
        ],
        answer: Answer::Sheet(7, 7),
    },
    Case {
        what: "class 4 with no points",
        records: &[
            CLASSED_KIND,
            NO_SLOTS,
            &[3, 0, 9, 0, 1, 0, 0, 0, 1, 4, 0, 0],
        ],
        answer: Answer::Sheet(7, 7),
    },
    Case {
        what: "class 5 in the second job",
        records: &[
            CLASSED_KIND,
            NO_SLOTS,
            &[3, 0, 9, 0, 1, 0, 0, 0, 1, 1, 0, 1],
            &[3, 0, 9, 0, 2, 0, 0, 0, 1, 5, 0, 1],
        ],
        answer: Answer::Sheet(7, 19),
    },
    Case {
        what: "class 5 wins over number 0",
        records: &[
            CLASSED_KIND,
            NO_SLOTS,
            &[3, 0, 9, 0, 0, 0, 0, 0, 1, 5, 0, 1],
        ],
        answer: Answer::Sheet(7, 7),
    },
    Case {
        what: "points in the high byte only",
        records: &[
            CLASSED_KIND,
            NO_SLOTS,
            &[3, 0, 9, 0, 1, 0, 0, 0, 1, 0, 1, 0],
        ],
        answer: Answer::Jobs(1),
    },
    Case {
        what: "a number twice",
        records: &[
            CLASSED_KIND,
            NO_SLOTS,
            &[3, 0, 9, 0, 1, 0, 0, 0, 1, 1, 0, 1],
            &[3, 0, 9, 0, 1, 0, 0, 0, 1, 1, 0, 1],
        ],
        answer: Answer::Table(10, 19, 1),
    },
    Case {
        what: "a job of 8 bytes",
        records: &[CLASSED_KIND, NO_SLOTS, &[3, 0, 8, 0, 1, 0, 0, 0, 1, 1, 1]],
        answer: Answer::Sheet(5, 7),
    },
    Case {
        what: "a job of 10 bytes",
        records: &[
            CLASSED_KIND,
            NO_SLOTS,
            &[3, 0, 10, 0, 1, 0, 0, 0, 1, 1, 0, 0, 1],
        ],
        answer: Answer::Sheet(5, 7),
    },
    Case {
        what: "points asked for as classed",
        records: &[KIND, NO_SLOTS],
        answer: Answer::Sheet(4, 0),
    },
];

const SHARES: [Case; 8] = [
    Case {
        what: "0 over 1",
        records: &[
            SHARE_KIND,
            NO_SLOTS,
            &[3, 0, 10, 0, 1, 0, 0, 0, 1, 0, 0, 0, 1],
        ],
        answer: Answer::Sheet(7, 7),
    },
    Case {
        what: "1 over 0",
        records: &[
            SHARE_KIND,
            NO_SLOTS,
            &[3, 0, 10, 0, 1, 0, 0, 0, 1, 0, 1, 0, 0],
        ],
        answer: Answer::Sheet(7, 7),
    },
    Case {
        what: "0 over 0",
        records: &[
            SHARE_KIND,
            NO_SLOTS,
            &[3, 0, 10, 0, 1, 0, 0, 0, 1, 0, 0, 0, 0],
        ],
        answer: Answer::Sheet(7, 7),
    },
    Case {
        what: "1 over 0 wins over no window",
        records: &[
            SHARE_KIND,
            NO_SLOTS,
            &[3, 0, 10, 0, 1, 0, 1, 0, 1, 0, 1, 0, 0],
        ],
        answer: Answer::Sheet(7, 7),
    },
    Case {
        what: "256 over 256",
        records: &[
            SHARE_KIND,
            NO_SLOTS,
            &[3, 0, 10, 0, 1, 0, 0, 0, 1, 1, 0, 1, 0],
        ],
        answer: Answer::Jobs(1),
    },
    Case {
        what: "number 0",
        records: &[
            SHARE_KIND,
            NO_SLOTS,
            &[3, 0, 10, 0, 0, 0, 0, 0, 1, 0, 2, 0, 3],
        ],
        answer: Answer::Table(8, 7, 0),
    },
    Case {
        what: "a job of 9 bytes",
        records: &[SHARE_KIND, NO_SLOTS, &[3, 0, 9, 0, 1, 0, 0, 0, 1, 1, 0, 1]],
        answer: Answer::Sheet(5, 7),
    },
    Case {
        what: "classed asked for as shares",
        records: &[CLASSED_KIND, NO_SLOTS],
        answer: Answer::Sheet(4, 0),
    },
];

#[test]
fn wrong_classed_and_shares(rt: HostRuntime) -> Result<(), Fail> {
    check_cases::<Classed>(rt.alloc(), &CLASSED)?;
    check_cases::<Share>(rt.alloc(), &SHARES)
}
