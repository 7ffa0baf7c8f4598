// How many rows are kept and how many dropped, and what the ones and the others weigh together.
ghost use Rattle.std.specs.Prelude.{◌≡◌, if◌then◌else◌, MatchOption, MatchResult};
ghost use Rattle.weights.specs.Kind.{Agrees};
ghost use Rattle.placing.specs.Orders.{heavier_then_lower};
ghost use Rattle.placing.specs.Promise.{total_of_kept};
ghost use Rattle.calls.specs.Questions.{kept_count, dropped_count, total_of_dropped};
ghost use Rattle.questions.specs.Stores.{Counted, StoreGood, StoreRefused};

use crate::order::check_store;
use crate::terms::Tally;
use calls::terms::StoreFault;
use jobs::terms::Row;
use weights::kind::{OrderedWeight, TotalledWeight};

// The tally of the rows, or what is wrong with the store that lies beside them.
pub fn tally<W: OrderedWeight>(rows: &[Row], store: &[W]) -> Result<Tally, StoreFault>
    ensures cases { MatchResult result (λ t. StoreGood (heavier_then_lower W.OrderedWeight.no_lighter) rows.now store.now × (t.kept ≡ kept_count rows.now) × (t.dropped ≡ dropped_count rows.now)) (StoreRefused (heavier_then_lower W.OrderedWeight.no_lighter) rows.now store.now) }
{
    check_store(rows, store)?;
    Ok(count(rows))
}

// Counts the rows with a seat, and those without.
fn count(rows: &[Row]) -> Tally
    ensures value { (result.kept ≡ kept_count rows.now) × (result.dropped ≡ dropped_count rows.now) }
{
    let mut kept = 0;
    let mut dropped = 0;
    // A loop: `filter` and `count` took four times as long, and a `fold` twice.
    for row in rows {
        match row.seat {
            Some(_) => kept += 1,
            None => dropped += 1,
        }
    }
    Tally { kept, dropped }
}

// What the kept rows weigh together, and what the dropped ones do; None exactly where there are more than 256 rows, or more
// than the store has weights for. With it comes the law that adding the heavier of two weights never gives the lighter total.
pub fn totals_of<W: TotalledWeight>(rows: &[Row], store: &[W]) -> Option<(W::Total, W::Total)>
    ensures cases { MatchOption result (Counted rows.now store.now → ⊥) (λ t. Counted rows.now store.now × (t.0 ≡ total_of_kept W.TotalledWeight.nothing W.TotalledWeight.plus rows.now store.now) × (t.1 ≡ total_of_dropped W.TotalledWeight.nothing W.TotalledWeight.plus rows.now store.now)) }
    ensures agrees { Agrees W.OrderedWeight.no_lighter W.TotalledWeight.plus W.TotalledWeight.over }
{
    let kept = total_where(rows, store, true)?;
    let dropped = total_where(rows, store, false)?;
    Some((kept, dropped))
}

// The total of the kept rows, or of the dropped ones. 256 weights always have a total. Beside the weights' `total_of`, whose marks are
// a slice: here a row's seat is the mark, and there is no heap to write marks to.
fn total_where<W: TotalledWeight>(rows: &[Row], store: &[W], kept: bool) -> Option<W::Total>
    ensures cases { MatchOption result (Counted rows.now store.now → ⊥) (λ t. Counted rows.now store.now × (t ≡ (if kept then total_of_kept W.TotalledWeight.nothing W.TotalledWeight.plus rows.now store.now else total_of_dropped W.TotalledWeight.nothing W.TotalledWeight.plus rows.now store.now))) }
    ensures agrees { Agrees W.OrderedWeight.no_lighter W.TotalledWeight.plus W.TotalledWeight.over }
{
    let mut total = W::nothing();
    if rows.len() > 256 || rows.len() > store.len() {
        return None;
    }
    // As many weights as rows: over slices of one length the loop takes less than half the time.
    for (row, weight) in rows.iter().zip(&store[..rows.len()]) {
        if row.seat.is_some() == kept {
            total = W::add(total, weight)?;
        }
    }
    Some(total)
}
