// What the reader is to answer on a sheet, and the checks of it.
use crate::sample::joined;
use jobs::terms::Job;
use sheets::reader::read;
use std::alloc::Global;
use std::fmt::{Debug, Display};
use std::test::Fail;
use weights::kind::OrderedWeight;

// By the customer's numbers: a Result of our faults would check only our own names.
#[derive(Clone, Copy, Debug, PartialEq, Eq)]
pub(crate) enum Answer {
    // Read, with that many jobs.
    Jobs(usize),
    // Refused with this number, at the record whose tag stands at this byte.
    Sheet(u8, usize),
    // The same, where the table refuses the job with this number.
    Table(u8, usize, u16),
}

// A sheet by its records, what there is to it, and the answer that the rules give.
#[derive(Clone, Copy)]
pub(crate) struct Case {
    pub what: &'static str,
    pub records: &'static [&'static [u8]],
    pub answer: Answer,
}

// The reader's answer for the kind W.
fn answer_of<W: OrderedWeight>(sheet: &[u8]) -> Answer {
    match read::<W>(sheet) {
        Ok(read) => Answer::Jobs(read.job_count()),
        Err(fault) => match fault.job() {
            Some(job) => Answer::Table(fault.number(), fault.byte(), job),
            None => Answer::Sheet(fault.number(), fault.byte()),
        },
    }
}

// What was found is what is due; else what the sheet is, and both, stand in the failure.
fn check_same<T: PartialEq + Debug + Copy>(
    what: impl Display + Copy,
    found: T,
    due: T,
) -> Result<(), Fail> {
    if found == due {
        return Ok(());
    }
    Err(Fail::new(format_args!("{what}: {found:?} in place of {due:?}")))
}

// The reader's answer for the kind W is this one; what the sheet is stands in the message of a test that fails.
pub(crate) fn check_answer<W: OrderedWeight>(
    what: impl Display + Copy,
    sheet: &[u8],
    answer: Answer,
) -> Result<(), Fail> {
    check_same(what, answer_of::<W>(sheet), answer)
}

// The same for each of the sheets.
pub(crate) fn check_cases<W: OrderedWeight>(heap: Global, cases: &[Case]) -> Result<(), Fail> {
    for case in cases {
        let sheet = joined(heap, case.records)?;
        check_answer::<W>(case.what, &sheet, case.answer)?;
    }
    Ok(())
}

// The sheet is read: with these masks and these jobs, and with no job behind them.
pub(crate) fn check_read<W: OrderedWeight + PartialEq + Debug>(
    what: impl Display + Copy,
    sheet: &[u8],
    masks: &[u8],
    jobs: &[Job<W>],
) -> Result<(), Fail> {
    let read = read::<W>(sheet)?;
    check_same(what, read.masks(), masks)?;
    check_same(what, read.job_count(), jobs.len())?;
    for (k, job) in jobs.iter().enumerate() {
        check_same(what, read.job(k), Some(*job))?;
    }
    check_same(what, read.job(jobs.len()), None)
}

// The same for a sheet by its records.
pub(crate) fn check_records<W: OrderedWeight + PartialEq + Debug>(
    heap: Global,
    records: &[&[u8]],
    masks: &[u8],
    jobs: &[Job<W>],
) -> Result<(), Fail> {
    let sheet = joined(heap, records)?;
    check_read::<W>("records", &sheet, masks, jobs)
}
