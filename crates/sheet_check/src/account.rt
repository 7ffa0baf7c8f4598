// Texts by functions and no Display: the words are this program's, the values those of other crates.
// The account of a sheet: its kind, the end of its calendar, the open places, the number of jobs, and the jobs in rank order.
ghost use Rattle.std.specs.Prelude.{◌≡◌, length, IfOk, string_bytes};
ghost use Rattle.calendars.specs.Masks.{listed_mask};
ghost use Rattle.calendars.specs.Places.{opens};
ghost use Rattle.sheet_check.specs.Accounts.{job_line, head_lines, refusal_line, Account};

use crate::printed::PrintedWeight;
use crate::rank::ranked_jobs;
use calendars::calendar::Calendar;
use calendars::listed::Listed;
use calendars::places::open_places;
use jobs::terms::Job;
use sheets::fault::LoadFault;
use sheets::sheet::Sheet;
use std::alloc::{AllocError, Global};

fn job_line<W: PrintedWeight>(heap: Global, job: &Job<W>) -> Result<String, AllocError>
    ensures { IfOk result (λ t. string_bytes t ≡ job_line W.PrintedWeight.written job.now) }
{
    let Job {
        number,
        ready,
        deadline,
        weight,
    } = *job;
    format!(in heap; "job {number} ready {ready} deadline {deadline} weight {weight}\n")
}

// A sheet has at most 1,024 masks, so that its calendar is always made.
fn head_lines<W: PrintedWeight>(heap: Global, sheet: &Sheet<'_, W>) -> Result<String, AllocError>
    ensures { IfOk result (λ t. string_bytes t ≡ head_lines W.PrintedWeight.called (length sheet.now.masks.now) (opens (listed_mask sheet.now.masks.now) 1024) sheet.now.count) }
{
    let calendar = Listed::new(sheet.masks()).unwrap();
    let kind = W::kind_name();
    let end = calendar.end();
    let places = open_places(&calendar);
    let count = sheet.job_count();
    format!(in heap; "kind {kind}\ncalendar end {end}\nopen places {places}\njobs {count}\n")
}

// The whole account of a sheet that was read.
pub(crate) fn account<W: PrintedWeight>(
    heap: Global,
    sheet: &Sheet<'_, W>,
) -> Result<String, AllocError>
    ensures { IfOk result (λ t. Account W.OrderedWeight.no_lighter W.OrderedWeight.encoding W.PrintedWeight.called W.PrintedWeight.written sheet.now.masks.now sheet.now.records.now sheet.now.count (string_bytes t)) }
{
    let mut text = head_lines(heap, sheet)?;
    let ranked = ranked_jobs(heap, sheet)?;
    for job in ranked.as_slice() {
        let line = job_line(heap, job)?;
        text.push_str(line.as_str())?;
    }
    Ok(text)
}

// The line of a refusal.
pub(crate) fn refusal(heap: Global, fault: LoadFault) -> Result<String, AllocError>
    ensures { IfOk result (λ t. string_bytes t ≡ refusal_line fault) }
{
    let number = fault.number();
    let byte = fault.byte();
    format!(in heap; "refused {number} at {byte}\n")
}
