// The calls that change the table of a plan. Each checks first, then changes the store and a copy of the table, plans the copy anew, and
// puts it in the table's place. The store is lent anew for each call, and not held by a planner, since between two calls it is the caller's
// to write: a call tells by a refusal (6) that its order is gone.
ghost use Rattle.std.specs.Prelude.{◌≡◌, true, OnErr};
ghost use Rattle.jobs.specs.declared.terms.Standing.TheVariants.{Kept};
ghost use Rattle.placing.specs.Orders.{earliest_then_lower};
ghost use Rattle.placing.specs.Placing.{SameTable};
ghost use Rattle.placing.specs.Plan.{Drawn, Stands};
ghost use Rattle.calls.specs.Calls.{FirstOther, Outcome};
ghost use Rattle.calls.specs.Moments.{in_force, at};
ghost use Rattle.calls.specs.declared.terms.Call.TheVariants.{Offer, Withdraw, Reweigh};
ghost use Rattle.plan.specs.Plans.{rows_in};
ghost use Rattle.plan.specs.Rows.{Numbered, OthersStay, Windows};
ghost use Rattle.plan.specs.Tables.{rows_of};

use crate::others::first_other;
use crate::planner::Plan;
use crate::ranking::{insert_ranked, remove_ranked};
use crate::refusing::{check_offer, named_rank};
use crate::table::Table;
use calendars::calendar::Calendar;
use calls::terms::Answer;
use jobs::terms::{Job, Row};
use weights::kind::OrderedWeight;

// Whether the named job is kept after a change of the table, and the first other job in rank order whose standing the change has changed.
fn answer(before: &Table, after: &Table, named: u16) -> (bool, Option<u16>)
    requires { OthersStay (rows_of before.now) (rows_of after.now) named }
    ensures kept { (result.0 ≡ true → Stands (rows_of after.now) named Kept) × (Stands (rows_of after.now) named Kept → result.0 ≡ true) }
    ensures other { FirstOther (rows_of before.now) (rows_of after.now) named result.1 }
{
    let kept = after
        .find(named)
        .is_some_and(|rank| after.row(rank).seat.is_some());
    (kept, first_other(before, after, named))
}

impl Plan {
    // Plans a changed table anew and puts it in the place of the plan's own, and answers as `answer` does. The named job aside, no job of
    // the old table is missing in the changed one.
    fn change<C: Calendar>(
        &mut self,
        calendar: &C,
        changed: &mut Table,
        named: u16,
    ) -> (bool, Option<u16>)
        requires windows { Windows (rows_of changed.old) }
        requires numbered { Numbered (rows_of changed.old) }
        requires stay { OthersStay (rows_in self.old) (rows_of changed.old) named }
        ensures same { SameTable (rows_of changed.old) (rows_in self.new) }
        ensures drawn { Drawn earliest_then_lower (C.Calendar.mask calendar.now) (rows_in self.new) }
        ensures kept { (result.0 ≡ true → Stands (rows_in self.new) named Kept) × (Stands (rows_in self.new) named Kept → result.0 ≡ true) }
        ensures other { FirstOther (rows_in self.old) (rows_in self.new) named result.1 }
    {
        changed.replan(calendar);
        let answered = answer(&self.table, changed, named);
        self.table = *changed;
        answered
    }

    // Adds a job to the table. Refused for a store that is too short (14) or out of rank order (6), number 0 (8), no window (9), a number
    // that is in the table (10) and a table of 256 jobs (11); plan and store are then as before.
    pub fn offer<W: OrderedWeight, C: Calendar>(
        &mut self,
        calendar: &C,
        store: &mut [W],
        job: Job<W>,
    ) -> Answer
        ensures outcome { Outcome (in_force W.OrderedWeight.no_lighter (C.Calendar.mask calendar.now)) (at (rows_in self.old) store.old) (Offer job) result (at (rows_in self.new) store.new) }
        ensures refused { OnErr result (self.new ≡ self.old) }
    {
        check_offer(&self.table, store, &job)?;
        let mut table = self.table;
        insert_ranked(&mut table, store, Row::from(&job), job.weight);
        Ok(self.change(calendar, &mut table, job.number))
    }

    // Takes the job with this number out of the table. Refused for a store that is too short (14) or out of rank order (6) and a number
    // that is not in the table (12); plan and store are then as before.
    pub fn withdraw<W: OrderedWeight, C: Calendar>(
        &mut self,
        calendar: &C,
        store: &mut [W],
        number: u16,
    ) -> Answer
        ensures outcome { Outcome (in_force W.OrderedWeight.no_lighter (C.Calendar.mask calendar.now)) (at (rows_in self.old) store.old) (Withdraw number) result (at (rows_in self.new) store.new) }
        ensures refused { OnErr result (self.new ≡ self.old) }
    {
        let rank = named_rank(&self.table, store, number)?;
        let mut table = self.table;
        remove_ranked(&mut table, store, rank);
        Ok(self.change(calendar, &mut table, number))
    }

    // Gives the job with this number another weight. Refused as a withdrawal is; plan and store are then as before.
    pub fn reweigh<W: OrderedWeight, C: Calendar>(
        &mut self,
        calendar: &C,
        store: &mut [W],
        number: u16,
        weight: W,
    ) -> Answer
        ensures outcome { Outcome (in_force W.OrderedWeight.no_lighter (C.Calendar.mask calendar.now)) (at (rows_in self.old) store.old) (Reweigh number weight) result (at (rows_in self.new) store.new) }
        ensures refused { OnErr result (self.new ≡ self.old) }
    {
        let from = named_rank(&self.table, store, number)?;
        let mut table = self.table;
        let row = table.row(from);
        remove_ranked(&mut table, store, from);
        insert_ranked(&mut table, store, row, weight);
        Ok(self.change(calendar, &mut table, number))
    }
}
