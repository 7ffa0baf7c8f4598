// The draw: the plan's seats for rows in rank order.
#![tactic(auto)]

ghost use Rattle.std.specs.Prelude.{is_ok};
ghost use Rattle.drawing.specs.Draw.{Draws};

use crate::checking::drawable;
use crate::reading::read_seats;
use crate::trials::{Places, Trials};
use calendars::calendar::Calendar;
use calendars::places::place_counts;
use jobs::terms::{Row, Seat};

mod checking;
mod reading;
mod trials;

// The rows cannot be drawn: there are more than 256, or not as many as seats, or some deadline is above 1,024, or two have one number.
#[derive(Clone, Copy, Debug, PartialEq, Eq)]
pub struct NotDrawable;

// The plan's seats for these rows, which stand in rank order: fills `seats`, entry i with the seat of row i or None. The seats lie apart
// from the rows, which stay as they are while they are read.
// The seats that the rows themselves hold do not matter. Refuses, `seats` unchanged, where there are more than 256 rows,
// `seats` is not as long as `rows`, some deadline is above 1,024 or two rows have one number.
pub fn draw<C: Calendar>(
    calendar: &C,
    rows: &[Row],
    seats: &mut [Option<Seat>],
) -> Result<(), NotDrawable>
    ensures answers { Draws (C.Calendar.mask calendar.now) rows.now seats.old seats.new (is_ok result) }
{
    if seats.len() != rows.len() || !drawable(rows) {
        return Err(NotDrawable);
    }
    let mut counts = [0u16; 1025];
    place_counts(calendar, &mut counts).unwrap();
    let mut places: Places = [None; 8192];
    let trials = Trials {
        rows,
        counts: &counts,
    };
    trials.deal(&mut places);
    read_seats(calendar, &counts, &places, seats);
    Ok(())
}
