// The sample sheet cut at every length.
use crate::answer::{Answer, check_answer, check_read};
use crate::sample::*;
use kinds::points::Points;
use std::test::Fail;

// What the first `length` bytes of the sample sheet are to answer. Its kind record ends at byte 4, its calendar record at byte
// 11, and each job record has 13 bytes. A cut behind the calendar or behind a job leaves a shorter sheet; where the kind or the
// calendar is due, that record is missing; any other cut falls inside a record.
fn answer_of_cut(length: usize) -> Answer {
    match length {
        0 => Answer::Sheet(3, 0),
        1..=3 => Answer::Sheet(1, 0),
        4 => Answer::Sheet(3, 4),
        5..=10 => Answer::Sheet(1, 4),
        _ => {
            let inside = (length - 11) % 13;
            if inside == 0 {
                Answer::Jobs((length - 11) / 13)
            } else {
                Answer::Sheet(1, length - inside)
            }
        }
    }
}

#[test]
fn every_cut(rt: HostRuntime) -> Result<(), Fail> {
    let bytes = joined(rt.alloc(), SAMPLE)?;
    let sheet = bytes.as_slice();
    assert!(rt; sheet.len() == 76);
    for length in 0..76 {
        check_answer::<Points>(length, &sheet[..length], answer_of_cut(length))?;
    }
    Ok(())
}

// Behind the calendar and behind each job but the last: the jobs up to there are read as in the whole sheet.
#[test]
fn shorter_sheets(rt: HostRuntime) -> Result<(), Fail> {
    let bytes = joined(rt.alloc(), SAMPLE)?;
    let sheet = bytes.as_slice();
    let jobs = sample_jobs()?;
    assert!(rt; sheet.len() == 76);
    for count in 0..5 {
        check_read::<Points>(count, &sheet[..11 + 13 * count], &MASKS, &jobs[..count])?;
    }
    Ok(())
}
