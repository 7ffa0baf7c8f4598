// The writer of job sheets.
ghost use Rattle.std.specs.Prelude.{◌≡◌, ◌+◌, ◌*◌, ◌≤◌, length, take, IfOk, MatchResult, OnErr};
ghost use Rattle.calls.specs.Moments.{jobs_in};
ghost use Rattle.placing.specs.Orders.{heavier_then_lower};
ghost use Rattle.plan.specs.Plans.{rows_in};
ghost use Rattle.writing.specs.Faults.{WriteRefused};
ghost use Rattle.writing.specs.Puts.{Put};
ghost use Rattle.writing.specs.Readings.{ReadsBack, WrittenBack};
ghost use Rattle.writing.specs.Written.{masks_of, written_sheet, Written};

use crate::fault::WriteFault;
use crate::front::Front;
use crate::records::{put_calendar, put_jobs, put_kind};
use calendars::calendar::Calendar;
use jobs::terms::Row;
use plan::Plan;
use questions::order::check_store;
use weights::kind::OrderedWeight;

// How many bytes the sheet has: the kind record, the calendar record and a record for each row.
fn sheet_length<W: OrderedWeight, C: Calendar>(rows: &[Row], calendar: &C) -> usize
    requires few { length rows.now ≤ 256 }
    ensures value { result ≡ 7 + C.Calendar.end calendar.now + length rows.now * (9 + W.OrderedWeight.WIDTH) }
{
    7 + calendar.end() as usize + rows.len() * (9 + W::WIDTH)
}

// Puts the sheet at the front of a buffer that has room for it, and answers how many bytes it has.
fn put_sheet<W: OrderedWeight, C: Calendar>(
    rows: &[Row],
    calendar: &C,
    store: &[W],
    out: &mut [u8],
) -> usize
    requires stored { length rows.now ≤ length store.now }
    requires room { 7 + C.Calendar.end calendar.now + length rows.now * (9 + W.OrderedWeight.WIDTH) ≤ length out.old }
    ensures value { Put 0 (written_sheet W.OrderedWeight.CODE W.OrderedWeight.encoding (C.Calendar.end calendar.now) (C.Calendar.mask calendar.now) rows.now store.now) out.old out.new result }
{
    let mut front = Front { out, len: 0 };
    put_kind::<W>(&mut front);
    put_calendar(calendar, &mut front);
    put_jobs(rows, store, &mut front);
    front.len
}

// Writes the sheet of the plan's table under the calendar at the front of the buffer, the jobs in rank order with the store's weights,
// and answers how many bytes it has, a length and no slice as `print` does; the rest of the buffer stays. The sheet reads back as this
// table and calendar. Refused for a store that is too short (14) or out of rank order (6) and a buffer that is too short (15); the buffer
// is then as before.
pub fn write<W: OrderedWeight, C: Calendar>(
    plan: &Plan,
    calendar: &C,
    store: &[W],
    out: &mut [u8],
) -> Result<usize, WriteFault>
    ensures cases { MatchResult result (λ n. Written W.OrderedWeight.no_lighter W.OrderedWeight.CODE W.OrderedWeight.encoding (C.Calendar.end calendar.now) (C.Calendar.mask calendar.now) (rows_in plan.now) store.now out.old out.new n) (λ f. WriteRefused (heavier_then_lower W.OrderedWeight.no_lighter) (rows_in plan.now) store.now (length (written_sheet W.OrderedWeight.CODE W.OrderedWeight.encoding (C.Calendar.end calendar.now) (C.Calendar.mask calendar.now) (rows_in plan.now) store.now)) (length out.old) f) }
    ensures refused { OnErr result (out.new ≡ out.old) }
    ensures reads { IfOk result (λ n. ReadsBack W.OrderedWeight.CODE W.OrderedWeight.WIDTH W.OrderedWeight.encoding (take n out.new) (masks_of (C.Calendar.end calendar.now) (C.Calendar.mask calendar.now)) (jobs_in (rows_in plan.now) store.now)) }
    ensures again { WrittenBack W.OrderedWeight.CODE W.OrderedWeight.WIDTH W.OrderedWeight.encoding W.OrderedWeight.no_lighter }
{
    let rows = plan.rows();
    check_store(rows, store)?;
    if out.len() < sheet_length::<W, C>(rows, calendar) {
        return Err(WriteFault::TooShort);
    }
    Ok(put_sheet(rows, calendar, store, out))
}
