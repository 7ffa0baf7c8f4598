// The reader of job sheets.
ghost use Rattle.std.specs.Prelude.{◌≡◌, ◌-◌, ◌<◌, ◌≤◌, List, length, take, drop, MatchResult};
ghost use Rattle.jobs.specs.declared.terms.Job.{Job};
ghost use Rattle.sheets.specs.Format.{job_records, Accepted, Refused};
ghost use Rattle.sheets.specs.Reading.{OneReading};
ghost use Rattle.sheets.specs.Steps.{JobAnswer, JobsRead, JobsRefused};

use crate::fault::{LoadFault, SheetFault};
use crate::job_record::{job_of, number_taken};
use crate::kind::code_of;
use crate::record::record_value;
use crate::sheet::Sheet;
use crate::tag::Tag;
use std::marker::PhantomData;
use weights::kind::OrderedWeight;

// The job record at byte `at`, where the records from byte `first` up to there hold the `count` jobs already in the table:
// the byte behind it, or the first cause against it.
// Three numbers for one caller: a struct would owe what they mean at each step.
fn check_job<W: OrderedWeight>(
    sheet: &[u8],
    first: usize,
    at: usize,
    count: usize,
) -> Result<usize, LoadFault>
    requires { (first ≤ at) × (at < length sheet.now) }
    ensures { (before : List (Job W)) → take (at - first) (drop first sheet.now) ≡ job_records W.OrderedWeight.encoding before → length before ≡ count → JobAnswer W.OrderedWeight.CODE W.OrderedWeight.WIDTH W.OrderedWeight.encoding before sheet.now at result }
{
    let size = 6 + W::WIDTH;
    let value = record_value(&sheet[at..], Tag::Job, size, size).map_err(|fault| fault.at(at))?;
    let job = job_of::<W>(value).map_err(|fault| SheetFault::from(fault).at(at))?;
    let taken = number_taken::<W>(&sheet[first..at], job.number);
    job.admission(taken, count)
        .map_err(|fault| LoadFault::Table(fault, at))?;
    Ok(at + 3 + value.len())
}

// The job records from byte `first` to the end: how many there are, or the first fault.
// A cursor and no iterator over parts of one size, since the next record begins where this one's own length says.
fn check_jobs<W: OrderedWeight>(sheet: &[u8], first: usize) -> Result<usize, LoadFault>
    requires { first ≤ length sheet.now }
    ensures { MatchResult result (λ count. JobsRead W.OrderedWeight.CODE W.OrderedWeight.WIDTH W.OrderedWeight.encoding sheet.now first (length sheet.now) count) (λ fault. JobsRefused W.OrderedWeight.CODE W.OrderedWeight.WIDTH W.OrderedWeight.encoding sheet.now first fault) }
{
    let mut at = first;
    let mut count = 0;
    while at < sheet.len() {
        at = check_job::<W>(sheet, first, at, count)?;
        count += 1;
    }
    Ok(count)
}

// Reads a sheet for the kind W, or answers its first fault. No sheet has two readings.
#[tactic(auto, using(crate::proofs::OneReading::one_reading))]
pub fn read<W: OrderedWeight>(sheet: &[u8]) -> Result<Sheet<'_, W>, LoadFault>
    ensures value { MatchResult result (λ s. Accepted W.OrderedWeight.CODE W.OrderedWeight.WIDTH W.OrderedWeight.encoding sheet.now s.masks.now s.records.now s.count) (λ fault. Refused W.OrderedWeight.CODE W.OrderedWeight.WIDTH W.OrderedWeight.encoding sheet.now fault) }
    ensures alone { OneReading W.OrderedWeight.CODE W.OrderedWeight.WIDTH W.OrderedWeight.encoding }
{
    let code = code_of(sheet).map_err(|fault| fault.at(0))?;
    if code != W::CODE {
        return Err(SheetFault::OtherKind.at(0));
    }
    let masks = record_value(&sheet[4..], Tag::Calendar, 0, 1024).map_err(|fault| fault.at(4))?;
    let first = 7 + masks.len();
    let count = check_jobs::<W>(sheet, first)?;
    Ok(Sheet {
        masks,
        records: &sheet[first..],
        count,
        kind: PhantomData,
    })
}
