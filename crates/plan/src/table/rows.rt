// How a table is read and changed. The count is promised beside the rows, since the bounds of indices are shown by it.
ghost use Rattle.std.specs.Prelude.{◌≡◌, ◌+◌, ◌-◌, ◌<◌, ◌≤◌, [], length, MatchOption, slice_set};
ghost use Rattle.std.specs.List.{insert, remove};
ghost use Rattle.jobs.specs.declared.terms.Standing.TheVariants.{Absent};
ghost use Rattle.placing.specs.Placing.{Apart, row as row_at};
ghost use Rattle.placing.specs.Plan.{Stands};
ghost use Rattle.plan.specs.Rows.{Distinct, with_seat};
ghost use Rattle.plan.specs.Tables.{rows_of};

use super::Table;
use crate::shift::{close_at, open_at};
use jobs::terms::{Row, Seat};

// What fills the rows not in use. No Default, since no job has the number 0.
const BLANK: Row = Row {
    number: 0,
    ready: 0,
    deadline: 0,
    seat: None,
};

impl Table {
    // A table without rows.
    pub(crate) fn new() -> Table
        ensures made { rows_of result ≡ [] }
        ensures count { result.count ≡ 0 }
    {
        Table {
            rows: [BLANK; 256],
            count: 0,
        }
    }

    // How many rows there are: never more than 256, and no two with one number.
    pub(crate) fn len(&self) -> usize
        ensures value { result ≡ length (rows_of self.now) }
        ensures count { result ≡ self.now.count }
        ensures few { result ≤ 256 }
        ensures apart { Apart (rows_of self.now) }
    {
        self.count
    }

    // The rows, in rank order: at most 256, and no two with one number.
    pub(crate) fn rows(&self) -> &[Row]
        ensures value { result.now ≡ rows_of self.now }
        ensures few { length result.now ≤ 256 }
        ensures distinct { Distinct (rows_of self.now) }
    {
        &self.rows[0..self.count]
    }

    // The row at a rank.
    pub(crate) fn row(&self, rank: usize) -> Row
        requires { rank < self.now.count }
        ensures value { result ≡ row_at (rows_of self.now) rank }
    {
        self.rows[rank]
    }

    // The rank of the job with a number, or None where no row has it.
    pub(crate) fn find(&self, number: u16) -> Option<usize>
        ensures cases { MatchOption result (Stands (rows_of self.now) number Absent) (λ rank. (rank < self.now.count) × ((row_at (rows_of self.now) rank).number ≡ number)) }
    {
        self.rows().iter().position(|row| row.number == number)
    }

    // Gives the row at a rank another seat, or none.
    pub(crate) fn seat_row(&mut self, rank: usize, seat: Option<Seat>)
        requires { rank < self.old.count }
        ensures leaves { rows_of self.new ≡ slice_set (rows_of self.old) rank (with_seat (row_at (rows_of self.old) rank) seat) }
        ensures count { self.new.count ≡ self.old.count }
    {
        self.rows[rank].seat = seat;
    }

    // Puts a row at a rank; those from there on move up by one.
    pub(crate) fn insert(&mut self, rank: usize, row: Row)
        requires room { self.old.count < 256 }
        requires within { rank ≤ self.old.count }
        requires absent { Stands (rows_of self.old) row.number Absent }
        ensures leaves { rows_of self.new ≡ insert (rows_of self.old) rank row }
        ensures count { self.new.count ≡ self.old.count + 1 }
    {
        open_at(&mut self.rows, self.count, rank, row);
        self.count += 1;
    }

    // Takes the row at a rank out; those behind it move down by one, and no row has its number then.
    pub(crate) fn remove(&mut self, rank: usize)
        requires { rank < self.old.count }
        ensures leaves { rows_of self.new ≡ remove (rows_of self.old) rank }
        ensures absent { Stands (rows_of self.new) (row_at (rows_of self.old) rank).number Absent }
        ensures count { self.new.count ≡ self.old.count - 1 }
    {
        close_at(&mut self.rows, self.count, rank);
        self.count -= 1;
    }
}
