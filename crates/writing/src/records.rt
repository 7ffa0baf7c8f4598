// The records of a sheet, put into a lent buffer.
ghost use Rattle.std.specs.Prelude.{◌+◌, ◌*◌, ◌≤◌, length};
ghost use Rattle.calls.specs.Moments.{jobs_in};
ghost use Rattle.placing.specs.Promise.{job_of};
ghost use Rattle.sheets.specs.Format.{kind_record, record_bytes, job_value, job_records};
ghost use Rattle.writing.specs.Puts.{Room, Adds};
ghost use Rattle.writing.specs.Written.{masks_of};

use crate::front::Front;
use calendars::calendar::Calendar;
use jobs::terms::Row;
use sheets::tag::Tag;
use weights::kind::OrderedWeight;

// Puts the record of the kind's code.
pub(crate) fn put_kind<W: OrderedWeight>(front: &mut Front)
    requires room { Room 4 front.old }
    ensures value { Adds (kind_record W.OrderedWeight.CODE) front.old front.new }
{
    front.put_header(Tag::Kind, 1);
    front.put(&[W::CODE]);
}

// Puts the calendar's mask for each slot below its end.
fn put_masks<C: Calendar>(calendar: &C, front: &mut Front)
    requires room { Room (C.Calendar.end calendar.now) front.old }
    ensures value { Adds (masks_of (C.Calendar.end calendar.now) (C.Calendar.mask calendar.now)) front.old front.new }
{
    // By slot, since a mask is asked for by its slot.
    for slot in 0..calendar.end() {
        front.put(&[calendar.mask(slot)]);
    }
}

// Puts the record of the calendar's masks.
pub(crate) fn put_calendar<C: Calendar>(calendar: &C, front: &mut Front)
    requires room { Room (3 + C.Calendar.end calendar.now) front.old }
    ensures value { Adds (record_bytes 2 (masks_of (C.Calendar.end calendar.now) (C.Calendar.mask calendar.now))) front.old front.new }
{
    front.put_header(Tag::Calendar, calendar.end());
    put_masks(calendar, front);
}

// Puts the record of a job.
fn put_job<W: OrderedWeight>(row: &Row, weight: &W, front: &mut Front)
    requires room { Room (9 + W.OrderedWeight.WIDTH) front.old }
    ensures value { Adds (record_bytes 3 (job_value W.OrderedWeight.encoding (job_of row.now weight.now))) front.old front.new }
{
    front.put_header(Tag::Job, (6 + W::WIDTH) as u16);
    front.put_two(row.number);
    front.put_two(row.ready);
    front.put_two(row.deadline);
    front.put_weight(weight);
}

// Puts the records of the rows' jobs, in their order, with the weights that the store has for them.
pub(crate) fn put_jobs<W: OrderedWeight>(rows: &[Row], store: &[W], front: &mut Front)
    requires stored { length rows.now ≤ length store.now }
    requires room { Room (length rows.now * (9 + W.OrderedWeight.WIDTH)) front.old }
    ensures value { Adds (job_records W.OrderedWeight.encoding (jobs_in rows.now store.now)) front.old front.new }
{
    for (row, weight) in rows.iter().zip(store) {
        put_job(row, weight, front);
    }
}
