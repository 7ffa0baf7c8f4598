// A table planned anew: its rows drawn under a calendar. That each row has its window is asked here and known of a plan, not of a table:
// there each insertion would owe it.
ghost use Rattle.std.specs.Prelude.{◌≡◌, length};
ghost use Rattle.drawing.specs.Draw.{seated};
ghost use Rattle.placing.specs.Orders.{earliest_then_lower};
ghost use Rattle.placing.specs.Placing.{SameTable};
ghost use Rattle.placing.specs.Plan.{Drawn};
ghost use Rattle.plan.specs.Rows.{Windows};
ghost use Rattle.plan.specs.Tables.{rows_of};

use super::Table;
use calendars::calendar::Calendar;
use drawing::draw;
use jobs::terms::Seat;

impl Table {
    // Gives each row the seat at its rank.
    fn seat_all(&mut self, seats: &[Option<Seat>])
        requires { length seats.now ≡ self.old.count }
        ensures leaves { rows_of self.new ≡ seated (rows_of self.old) seats.now }
        ensures count { self.new.count ≡ self.old.count }
    {
        // By rank: a row's seat is changed by the table's own method, which promises that nothing else changes.
        for rank in 0..self.count {
            self.seat_row(rank, seats[rank]);
        }
    }

    // Draws the rows anew, where each has its window, with a lent entry for each row's seat.
    fn draw_with<C: Calendar>(&mut self, calendar: &C, seats: &mut [Option<Seat>])
        requires lent { length seats.old ≡ self.old.count }
        requires windows { Windows (rows_of self.old) }
        ensures same { SameTable (rows_of self.old) (rows_of self.new) }
        ensures drawn { Drawn earliest_then_lower (C.Calendar.mask calendar.now) (rows_of self.new) }
        ensures count { self.new.count ≡ self.old.count }
    {
        draw(calendar, self.rows(), seats).unwrap();
        self.seat_all(seats);
    }

    // Plans the table anew, where each row has its window: who is kept, and where they sit.
    pub(crate) fn replan<C: Calendar>(&mut self, calendar: &C)
        requires windows { Windows (rows_of self.old) }
        ensures same { SameTable (rows_of self.old) (rows_of self.new) }
        ensures drawn { Drawn earliest_then_lower (C.Calendar.mask calendar.now) (rows_of self.new) }
        ensures count { self.new.count ≡ self.old.count }
    {
        let mut seats: [Option<Seat>; 256] = [None; 256];
        self.draw_with(calendar, &mut seats[0..self.count]);
    }
}
