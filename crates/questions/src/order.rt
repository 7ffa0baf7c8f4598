// The rank of rows by their weights, which lie in a store of the caller's beside them: that of row i at i.
ghost use Rattle.std.specs.Prelude.{Decides, MatchResult};
ghost use Rattle.placing.specs.Orders.{heavier_then_lower};
ghost use Rattle.calls.specs.Moments.{Ordered};
ghost use Rattle.questions.specs.Stores.{StoreGood, StoreRefused};

use calls::terms::StoreFault;
use jobs::terms::Row;
use weights::kind::OrderedWeight;
use weights::ranking::ranks_before;

// Whether the store has a weight for each row, and these put the rows in rank order: the heavier first, and among equals the
// lower number. False where the store has fewer entries than there are rows. Beside the weights' `in_rank_order`, whose numbers are a slice:
// one for anything numbered would be a trait of two impls, or a third function behind both, for one loop.
pub fn in_order<W: OrderedWeight>(rows: &[Row], store: &[W]) -> bool
    ensures answers { Decides result (Ordered (heavier_then_lower W.OrderedWeight.no_lighter) rows.now store.now) }
{
    if store.len() < rows.len() {
        return false;
    }
    // By index, as `in_rank_order` is: each turn reads two neighbours of the rows and of the store.
    for rank in 1..rows.len() {
        if !ranks_before(
            &store[rank - 1],
            rows[rank - 1].number,
            &store[rank],
            rows[rank].number,
        ) {
            return false;
        }
    }
    true
}

// Whether the store of these rows is long enough and puts them in rank order; else what is wrong with it, the length first.
pub fn check_store<W: OrderedWeight>(rows: &[Row], store: &[W]) -> Result<(), StoreFault>
    ensures cases { MatchResult result (λ _. StoreGood (heavier_then_lower W.OrderedWeight.no_lighter) rows.now store.now) (StoreRefused (heavier_then_lower W.OrderedWeight.no_lighter) rows.now store.now) }
{
    if store.len() < 256 {
        return Err(StoreFault::TooShort);
    }
    if !in_order(rows, store) {
        return Err(StoreFault::OutOfRank);
    }
    Ok(())
}
