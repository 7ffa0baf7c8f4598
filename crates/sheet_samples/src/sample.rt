// The sample sheet, with four masks and five jobs of points, by its records; and the parts of other sheets.
use jobs::terms::Job;
use kinds::points::Points;
use std::alloc::{AllocError, Global};
use weights::fault::WeightFault;

pub(crate) const KIND: &[u8] = &[1, 0, 1, 1];

pub(crate) const CALENDAR: &[u8] = &[2, 0, 4, 1, 1, 1, 1];

pub(crate) const FIRST: &[u8] = &[3, 0, 10, 0, 1, 0, 0, 0, 2, 0, 0, 0, 5];

pub(crate) const SECOND: &[u8] = &[3, 0, 10, 0, 2, 0, 0, 0, 1, 0, 0, 0, 4];

pub(crate) const THIRD: &[u8] = &[3, 0, 10, 0, 3, 0, 1, 0, 2, 0, 0, 0, 3];

pub(crate) const FOURTH: &[u8] = &[3, 0, 10, 0, 4, 0, 1, 0, 4, 0, 0, 0, 2];

pub(crate) const FIFTH: &[u8] = &[3, 0, 10, 0, 5, 0, 0, 0, 4, 0, 0, 0, 1];

// The sample sheet. Its records stand at the bytes 0, 4, 11, 24, 37, 50 and 63, and it has 76 bytes.
pub(crate) const SAMPLE: &[&[u8]] = &[KIND, CALENDAR, FIRST, SECOND, THIRD, FOURTH, FIFTH];

// Its masks.
pub(crate) const MASKS: [u8; 4] = [1, 1, 1, 1];

// The other two kinds, and a calendar of no slots.
pub(crate) const CLASSED_KIND: &[u8] = &[1, 0, 1, 2];

pub(crate) const SHARE_KIND: &[u8] = &[1, 0, 1, 3];

pub(crate) const NO_SLOTS: &[u8] = &[2, 0, 0];

// The bytes of some records, one after the other.
pub(crate) fn joined(heap: Global, records: &[&[u8]]) -> Result<Vec<u8>, AllocError> {
    let mut sheet = Vec::new(heap);
    for record in records {
        sheet.extend_from_slice(record)?;
    }
    Ok(sheet)
}

// A job with that many points.
pub(crate) fn points_job(
    number: u16,
    ready: u16,
    deadline: u16,
    count: u32,
) -> Result<Job<Points>, WeightFault> {
    let weight = Points::new(count)?;
    Ok(Job {
        number,
        ready,
        deadline,
        weight,
    })
}

// The jobs of the sample sheet.
pub(crate) fn sample_jobs() -> Result<[Job<Points>; 5], WeightFault> {
    Ok([
        points_job(1, 0, 2, 5)?,
        points_job(2, 0, 1, 4)?,
        points_job(3, 1, 2, 3)?,
        points_job(4, 1, 4, 2)?,
        points_job(5, 0, 4, 1)?,
    ])
}
