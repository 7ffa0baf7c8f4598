// Why a call is refused: the first cause that holds, before anything is changed.
ghost use Rattle.std.specs.Prelude.{◌≡◌, ◌<◌, MatchResult};
ghost use Rattle.calls.specs.Calls.{FirstCause, NoCause};
ghost use Rattle.calls.specs.Moments.{at};
ghost use Rattle.calls.specs.declared.terms.Call.TheVariants.{Offer};
ghost use Rattle.placing.specs.Orders.{heavier_then_lower};
ghost use Rattle.placing.specs.Placing.{row as row_at};
ghost use Rattle.questions.specs.Stores.{StoreGood};
ghost use Rattle.plan.specs.Refusing.{NameRefused};
ghost use Rattle.plan.specs.Tables.{rows_of};

use crate::table::Table;
use calls::terms::CallFault;
use jobs::terms::Job;
use questions::order::check_store;
use weights::kind::OrderedWeight;

// Refuses an offer for the first cause against it.
pub(crate) fn check_offer<W: OrderedWeight>(
    table: &Table,
    store: &[W],
    job: &Job<W>,
) -> Result<(), CallFault>
    ensures cases { MatchResult result (λ _. StoreGood (heavier_then_lower W.OrderedWeight.no_lighter) (rows_of table.now) store.now × NoCause (heavier_then_lower W.OrderedWeight.no_lighter) (Offer job.now) (at (rows_of table.now) store.now)) (FirstCause (heavier_then_lower W.OrderedWeight.no_lighter) (Offer job.now) (at (rows_of table.now) store.now)) }
{
    check_store(table.rows(), store)?;
    let taken = table.find(job.number).is_some();
    job.admission(taken, table.len())?;
    Ok(())
}

// The rank of the job that a call names, or the first cause against the call.
pub(crate) fn named_rank<W: OrderedWeight>(
    table: &Table,
    store: &[W],
    number: u16,
) -> Result<usize, CallFault>
    ensures cases { MatchResult result (λ rank. StoreGood (heavier_then_lower W.OrderedWeight.no_lighter) (rows_of table.now) store.now × (rank < table.now.count) × ((row_at (rows_of table.now) rank).number ≡ number)) (NameRefused (heavier_then_lower W.OrderedWeight.no_lighter) (rows_of table.now) store.now number) }
{
    check_store(table.rows(), store)?;
    table.find(number).ok_or(CallFault::NumberUnknown)
}
