// The sample sheet with its records in another order, or with one removed.
use crate::answer::{Answer, Case, check_cases, check_records};
use crate::sample::*;
use kinds::points::Points;
use std::test::Fail;

const REMOVED: [Case; 4] = [
    Case {
        what: "kind removed",
        records: &[CALENDAR, FIRST, SECOND, THIRD, FOURTH, FIFTH],
        answer: Answer::Sheet(3, 0),
    },
    Case {
        what: "calendar removed",
        records: &[KIND, FIRST, SECOND, THIRD, FOURTH, FIFTH],
        answer: Answer::Sheet(3, 4),
    },
    Case {
        what: "kind and calendar removed",
        records: &[FIRST, SECOND, THIRD, FOURTH, FIFTH],
        answer: Answer::Sheet(3, 0),
    },
    Case {
        what: "kind and calendar swapped",
        records: &[CALENDAR, KIND, FIRST, SECOND, THIRD, FOURTH, FIFTH],
        answer: Answer::Sheet(3, 0),
    },
];

#[test]
fn swapped_and_removed(rt: HostRuntime) -> Result<(), Fail> {
    let heap = rt.alloc();
    let [a, b, c, d, e] = sample_jobs()?;
    let neighbours = &[KIND, CALENDAR, SECOND, FIRST, THIRD, FOURTH, FIFTH];
    check_records::<Points>(heap, neighbours, &MASKS, &[b, a, c, d, e])?;
    let ends = &[KIND, CALENDAR, FIFTH, SECOND, THIRD, FOURTH, FIRST];
    check_records::<Points>(heap, ends, &MASKS, &[e, b, c, d, a])?;
    let without = &[KIND, CALENDAR, FIRST, SECOND, FOURTH, FIFTH];
    check_records::<Points>(heap, without, &MASKS, &[a, b, d, e])?;
    check_cases::<Points>(heap, &REMOVED)
}
