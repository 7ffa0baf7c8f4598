// The seat of each row, read off the places. Calendar, places and seats come one by one: a struct of them would be made for these two alone.
ghost use Rattle.std.specs.Prelude.{◌≡◌, ℕ, ◌+◌, ◌<◌, ◌≤◌, length, count_ones, slice_index};
ghost use Rattle.calendars.specs.Places.{opens};
ghost use Rattle.drawing.specs.Seats.{Once, SeatsRead};
ghost use Rattle.drawing.specs.Trial.{OfRows};

use crate::trials::Places;
use calendars::calendar::Calendar;
use calendars::links::kth_open_link;
use jobs::terms::Seat;

// Seats the rows at the open places of one slot, those from `first` up to, and without, `past`.
fn read_slot<C: Calendar>(
    calendar: &C,
    slot: u16,
    first: u16,
    past: u16,
    places: &Places,
    seats: &mut [Option<Seat>],
)
    requires slots { slot < 1024 }
    requires begins { first ≡ opens (C.Calendar.mask calendar.now) slot }
    requires ends { past ≡ first + count_ones (C.Calendar.mask calendar.now slot) }
    requires room { past ≤ 8192 }
    requires few { length seats.old ≤ 256 }
    requires seated { OfRows places.now (length seats.old) }
    requires once { Once places.now past (length seats.old) }
    requires read { SeatsRead (C.Calendar.mask calendar.now) places.now seats.old first }
    ensures leaves { SeatsRead (C.Calendar.mask calendar.now) places.now seats.new past }
{
    // by place, since its number tells the link
    for p in first..past {
        if let Some(row) = places[usize::from(p)] {
            let link = kth_open_link(calendar, slot, (p - first) as u8).unwrap();
            seats[usize::from(row)] = Some(Seat { slot, link });
        }
    }
}

// Seats each row that sits at an open place; the others have no seat.
pub(crate) fn read_seats<C: Calendar>(
    calendar: &C,
    counts: &[u16; 1025],
    places: &Places,
    seats: &mut [Option<Seat>],
)
    requires counted { (s : ℕ) → s ≤ 1024 → slice_index counts.now s ≡ opens (C.Calendar.mask calendar.now) s }
    requires room { slice_index counts.now 1024 ≤ 8192 }
    requires few { length seats.old ≤ 256 }
    requires seated { OfRows places.now (length seats.old) }
    requires once { Once places.now (slice_index counts.now 1024) (length seats.old) }
    ensures leaves { SeatsRead (C.Calendar.mask calendar.now) places.now seats.new (slice_index counts.now 1024) }
{
    seats.fill(None);
    // by slot, since its number is part of a seat
    for s in 0..1024 {
        read_slot(calendar, s as u16, counts[s], counts[s + 1], places, seats);
    }
}
