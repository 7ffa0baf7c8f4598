// The questions about a plan. They change nothing.
ghost use Rattle.std.specs.Prelude.{◌≡◌, MatchResult};
ghost use Rattle.jobs.specs.declared.terms.Standing.{Standing as Stood};
ghost use Rattle.placing.specs.Orders.{heavier_then_lower};
ghost use Rattle.placing.specs.Plan.{Stands};
ghost use Rattle.placing.specs.Promise.{total_of_kept};
ghost use Rattle.calls.specs.Questions.{SeatOf, StretchOf, kept_count, dropped_count, total_of_dropped};
ghost use Rattle.questions.specs.Stores.{StoreGood, StoreRefused};
ghost use Rattle.plan.specs.Plans.{rows_in};

use crate::planner::Plan;
use calls::terms::{StoreFault, StretchFault};
use jobs::terms::{Seat, Standing};
use questions::stretch::stretch_at;
use questions::tally::{tally, totals_of};
use questions::terms::{Tally, TotalTally};
use weights::kind::{OrderedWeight, TotalledWeight};

impl Plan {
    // Whether the job with this number is kept, dropped or absent: its one standing.
    pub fn standing(&self, number: u16) -> Standing
        ensures value { Stands (rows_in self.now) number result }
        ensures alone { (s : Stood) → Stands (rows_in self.now) number s → s ≡ result }
    {
        match self.table.find(number) {
            Some(rank) if self.table.row(rank).seat.is_some() => Standing::Kept,
            Some(_) => Standing::Dropped,
            None => Standing::Absent,
        }
    }

    // Where the job with this number sits; None where it is dropped or absent.
    pub fn seat(&self, number: u16) -> Option<Seat>
        ensures value { SeatOf (rows_in self.now) number result }
    {
        let rank = self.table.find(number)?;
        self.table.row(rank).seat
    }

    // The stretch of the dropped job with this number: its first slot and the slot after its last. Refused for a number that is not
    // in the table (12) and for a job that is kept (13).
    pub fn stretch(&self, number: u16) -> Result<(u16, u16), StretchFault>
        ensures value { StretchOf (rows_in self.now) number result }
    {
        let rank = self.table.find(number).ok_or(StretchFault::NumberUnknown)?;
        if self.table.row(rank).seat.is_some() {
            return Err(StretchFault::JobKept);
        }
        Ok(stretch_at(self.rows(), rank).unwrap())
    }

    // How many jobs are kept, and how many dropped. Refused for a store that is too short (14) or out of rank order (6).
    pub fn tally<W: OrderedWeight>(&self, store: &[W]) -> Result<Tally, StoreFault>
        ensures cases { MatchResult result (λ t. StoreGood (heavier_then_lower W.OrderedWeight.no_lighter) (rows_in self.now) store.now × (t.kept ≡ kept_count (rows_in self.now)) × (t.dropped ≡ dropped_count (rows_in self.now))) (StoreRefused (heavier_then_lower W.OrderedWeight.no_lighter) (rows_in self.now) store.now) }
    {
        tally(self.rows(), store)
    }

    // A question of its own, since a kind without totals has none to ask for.
    // The tally, with the total of the kept jobs' weights and that of the dropped ones. Refused as the tally is.
    pub fn tally_totals<W: TotalledWeight>(
        &self,
        store: &[W],
    ) -> Result<TotalTally<W::Total>, StoreFault>
        ensures cases { MatchResult result (λ t. StoreGood (heavier_then_lower W.OrderedWeight.no_lighter) (rows_in self.now) store.now × (t.jobs.kept ≡ kept_count (rows_in self.now)) × (t.jobs.dropped ≡ dropped_count (rows_in self.now)) × (t.kept_total ≡ total_of_kept W.TotalledWeight.nothing W.TotalledWeight.plus (rows_in self.now) store.now) × (t.dropped_total ≡ total_of_dropped W.TotalledWeight.nothing W.TotalledWeight.plus (rows_in self.now) store.now)) (StoreRefused (heavier_then_lower W.OrderedWeight.no_lighter) (rows_in self.now) store.now) }
    {
        let jobs = self.tally(store)?;
        let (kept_total, dropped_total) = totals_of(self.rows(), store).unwrap();
        Ok(TotalTally {
            jobs,
            kept_total,
            dropped_total,
        })
    }
}
