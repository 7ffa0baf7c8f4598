// Sheets that are read whole, one of each kind.
use crate::answer::check_records;
use crate::sample::*;
use jobs::terms::Job;
use kinds::classed::Classed;
use kinds::points::Points;
use kinds::share::Share;
use std::test::Fail;

// Job 7 of class 4 with 65,535 points, then job 256 of class 0 with 1.
const CLASSED: &[&[u8]] = &[
    CLASSED_KIND,
    &[2, 0, 3, 255, 0, 129],
    &[3, 0, 9, 0, 7, 0, 0, 0, 2, 4, 255, 255],
    &[3, 0, 9, 1, 0, 0, 1, 4, 0, 0, 0, 1],
];

// Job 65,535 with the share 1 over 2, then job 1 with 258 over 65,535.
const SHARES: &[&[u8]] = &[
    SHARE_KIND,
    &[2, 0, 1, 128],
    &[3, 0, 10, 255, 255, 1, 2, 2, 1, 0, 1, 0, 2],
    &[3, 0, 10, 0, 1, 0, 0, 0, 1, 1, 2, 255, 255],
];

// Job 1 with the most points.
const MOST: &[u8] = &[3, 0, 10, 0, 1, 0, 0, 0, 2, 255, 255, 255, 255];

#[test]
fn points_are_read(rt: HostRuntime) -> Result<(), Fail> {
    let heap = rt.alloc();
    let most = points_job(1, 0, 2, 4_294_967_295)?;
    check_records::<Points>(heap, SAMPLE, &MASKS, &sample_jobs()?)?;
    check_records::<Points>(heap, &[KIND, CALENDAR], &MASKS, &[])?;
    check_records::<Points>(heap, &[KIND, NO_SLOTS], &[], &[])?;
    check_records::<Points>(heap, &[KIND, NO_SLOTS, MOST], &[], &[most])
}

#[test]
fn classed_are_read(rt: HostRuntime) -> Result<(), Fail> {
    let heap = rt.alloc();
    let jobs = [
        Job {
            number: 7,
            ready: 0,
            deadline: 2,
            weight: Classed::new(4, 65_535)?,
        },
        Job {
            number: 256,
            ready: 1,
            deadline: 1024,
            weight: Classed::new(0, 1)?,
        },
    ];
    check_records::<Classed>(heap, CLASSED, &[255, 0, 129], &jobs)?;
    check_records::<Classed>(heap, &[CLASSED_KIND, NO_SLOTS], &[], &[])
}

#[test]
fn shares_are_read(rt: HostRuntime) -> Result<(), Fail> {
    let heap = rt.alloc();
    let jobs = [
        Job {
            number: 65_535,
            ready: 258,
            deadline: 513,
            weight: Share::new(1, 2)?,
        },
        Job {
            number: 1,
            ready: 0,
            deadline: 1,
            weight: Share::new(258, 65_535)?,
        },
    ];
    check_records::<Share>(heap, SHARES, &[128], &jobs)?;
    check_records::<Share>(heap, &[SHARE_KIND, NO_SLOTS], &[], &[])
}
