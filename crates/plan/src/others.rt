// Whose standing a change of the table has changed, besides that of the job it names. Two tables and a number each time: a struct of the
// three would be made for one call alone.
ghost use Rattle.std.specs.Prelude.{◌≡◌, ◌<◌, Decides};
ghost use Rattle.calls.specs.Calls.{FirstOther};
ghost use Rattle.placing.specs.Placing.{row as row_at};
ghost use Rattle.placing.specs.Promise.{Changed};
ghost use Rattle.plan.specs.Rows.{OthersStay};
ghost use Rattle.plan.specs.Tables.{rows_of};

use crate::table::Table;

// Whether the job at a rank of the table after has another standing than in the table before.
fn changed(before: &Table, after: &Table, rank: usize) -> bool
    requires { rank < after.now.count }
    ensures answers { Decides result (Changed (rows_of before.now) (rows_of after.now) (row_at (rows_of after.now) rank).number) }
{
    let row = after.row(rank);
    match before.find(row.number) {
        Some(was) => before.row(was).seat.is_some() != row.seat.is_some(),
        None => true,
    }
}

// The number of the first job in rank order, but for the named one, that has another standing than in the table before.
pub(crate) fn first_other(before: &Table, after: &Table, named: u16) -> Option<u16>
    requires { OthersStay (rows_of before.now) (rows_of after.now) named }
    ensures value { FirstOther (rows_of before.now) (rows_of after.now) named result }
{
    // Tried as `(0..after.len()).find(..)`: what a failing closure says of its two tests together was not proved.
    for rank in 0..after.len() {
        let number = after.row(rank).number;
        if number != named && changed(before, after, rank) {
            return Some(number);
        }
    }
    None
}
