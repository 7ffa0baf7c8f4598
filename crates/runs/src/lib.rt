// Runs of calls on a plan, and the whole promise over them.
#![tactic(auto)]

ghost use Rattle.std.specs.Prelude.{◌≡◌, min, List, [], length, take, drop, OnErr};
ghost use Rattle.jobs.specs.declared.terms.Job.{Job};
ghost use Rattle.calls.specs.Calls.{Outcome, Run, Promised, PromisedTotals};
ghost use Rattle.calls.specs.Moments.{in_force, at, PlanAt};
ghost use Rattle.plan.specs.Plans.{rows_in};

use calendars::calendar::Calendar;
use calls::terms::{Answer, Call};
use plan::Plan;
use weights::kind::{OrderedWeight, TotalledWeight};

mod equal;

pub use equal::interchangeable;

// Makes one call, and answers as it does.
pub fn perform<W: OrderedWeight, C: Calendar>(
    plan: &mut Plan,
    calendar: &C,
    store: &mut [W],
    call: Call<W>,
) -> Answer
    ensures outcome { Outcome (in_force W.OrderedWeight.no_lighter (C.Calendar.mask calendar.now)) (at (rows_in plan.old) store.old) call result (at (rows_in plan.new) store.new) }
    ensures refused { OnErr result (plan.new ≡ plan.old) }
{
    match call {
        Call::Offer(job) => plan.offer(calendar, store, job),
        Call::Withdraw(number) => plan.withdraw(calendar, store, number),
        Call::Reweigh(number, weight) => plan.reweigh(calendar, store, number, weight),
    }
}

// Makes the calls in turn, as many as there are entries for their answers, and tells how many; the entries behind stay as they were.
//
// The whole promise. Begin with a newly opened plan, or with any plan that is the plan of its table, and let nothing else write the
// store: then after each call, accepted or refused, the plan is the plan of the table then (the one it began with, changed by the
// accepted calls alone), no rival keeps more at any weight level, each dropped job has its stretch full of kept jobs no lighter, and
// the call has changed the standing of no job but the named one and at most one other, which it answers.
//
// Plan, calendar and store are lent anew, as for each call; the answers go into the caller's slice, since there is no heap.
pub fn replay<W: OrderedWeight, C: Calendar>(
    plan: &mut Plan,
    calendar: &C,
    store: &mut [W],
    calls: &[Call<W>],
    answers: &mut [Answer],
) -> usize
    ensures value { result ≡ min (length calls.now) (length answers.old) }
    ensures leaves { drop result answers.new ≡ drop result answers.old }
    ensures run { Run (in_force W.OrderedWeight.no_lighter (C.Calendar.mask calendar.now)) (at (rows_in plan.old) store.old) (take result calls.now) (take result answers.new) (at (rows_in plan.new) store.new) }
    ensures promised { (table : List (Job W)) → PlanAt (in_force W.OrderedWeight.no_lighter (C.Calendar.mask calendar.now)) table (at (rows_in plan.old) store.old) → Promised (in_force W.OrderedWeight.no_lighter (C.Calendar.mask calendar.now)) table (at (rows_in plan.old) store.old) (take result calls.now) (take result answers.new) (at (rows_in plan.new) store.new) }
    ensures opened { rows_in plan.old ≡ [] → Promised (in_force W.OrderedWeight.no_lighter (C.Calendar.mask calendar.now)) [] (at (rows_in plan.old) store.old) (take result calls.now) (take result answers.new) (at (rows_in plan.new) store.new) }
{
    let performed = calls.len().min(answers.len());
    // By index. Tried as `calls.iter().zip(answers.iter_mut())`: what is written through such a chain is lost to the proof.
    for i in 0..performed {
        let call = calls[i];
        let answer = perform(plan, calendar, store, call);
        answers[i] = answer;
    }
    performed
}

// Apart from `replay`, since a kind without totals has no such promise.
// The same for a kind with totals, and the whole promise with its last part: after each call no rival's kept total is heavier.
pub fn replay_totalled<W: TotalledWeight, C: Calendar>(
    plan: &mut Plan,
    calendar: &C,
    store: &mut [W],
    calls: &[Call<W>],
    answers: &mut [Answer],
) -> usize
    ensures value { result ≡ min (length calls.now) (length answers.old) }
    ensures leaves { drop result answers.new ≡ drop result answers.old }
    ensures run { Run (in_force W.OrderedWeight.no_lighter (C.Calendar.mask calendar.now)) (at (rows_in plan.old) store.old) (take result calls.now) (take result answers.new) (at (rows_in plan.new) store.new) }
    ensures promised { (table : List (Job W)) → PlanAt (in_force W.OrderedWeight.no_lighter (C.Calendar.mask calendar.now)) table (at (rows_in plan.old) store.old) → PromisedTotals W.TotalledWeight.nothing W.TotalledWeight.plus W.TotalledWeight.over (in_force W.OrderedWeight.no_lighter (C.Calendar.mask calendar.now)) table (at (rows_in plan.old) store.old) (take result calls.now) (take result answers.new) (at (rows_in plan.new) store.new) }
    ensures opened { rows_in plan.old ≡ [] → PromisedTotals W.TotalledWeight.nothing W.TotalledWeight.plus W.TotalledWeight.over (in_force W.OrderedWeight.no_lighter (C.Calendar.mask calendar.now)) [] (at (rows_in plan.old) store.old) (take result calls.now) (take result answers.new) (at (rows_in plan.new) store.new) }
{
    // With the totalling call comes the law that joins relation and total.
    let _ = W::nothing();
    replay(plan, calendar, store, calls, answers)
}
