// The stretch of a row: the smallest run of slots round its window that holds the whole window of each row seated in it.
// A run is a pair, its first slot and the slot after its last, as the definitions have it.
ghost use Rattle.std.specs.Prelude.{◌<◌, ◌≤◌, length, MatchOption};
ghost use Rattle.placing.specs.Plan.{Closed, Stretch};
ghost use Rattle.questions.specs.Widening.{Inside, Widened};

use jobs::terms::Row;

// The stretch of the row at this rank; None exactly where there is no such row. An empty window is its own stretch.
pub fn stretch_at(rows: &[Row], rank: usize) -> Option<(u16, u16)>
    ensures cases { MatchOption result (length rows.now ≤ rank) (λ run. (rank < length rows.now) × Stretch rows.now rank run.0 run.1) }
{
    let row = rows.get(rank)?;
    let mut lo = row.ready;
    let mut hi = row.deadline;
    // A bare loop: it ends with the first pass that widens nothing.
    loop {
        let (from, to) = widen(rows, lo, hi);
        if from == lo && to == hi {
            return Some((lo, hi));
        }
        lo = from;
        hi = to;
    }
}

// One pass over the rows: widens the run by the window of each row that is seated in it by then.
fn widen(rows: &[Row], lo: u16, hi: u16) -> (u16, u16)
    ensures value { Widened (Closed rows.now) lo hi result.0 result.1 }
{
    let mut from = lo;
    let mut to = hi;
    for row in rows {
        (from, to) = widen_by(row, from, to);
    }
    (from, to)
}

// Widens the run by the row's window where the row is seated in the run.
fn widen_by(row: &Row, lo: u16, hi: u16) -> (u16, u16)
    ensures value { Widened (Inside row.now) lo hi result.0 result.1 }
{
    match row.seat {
        Some(seat) if (lo..hi).contains(&seat.slot) => (lo.min(row.ready), hi.max(row.deadline)),
        _ => (lo, hi),
    }
}
