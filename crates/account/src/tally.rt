// How the calls of a kind are replayed and its tallies printed: with both totals, where the kind has them.
use crate::text::{counts_text, refused_text, totals_text};
use crate::written::WrittenWeight;
use calendars::calendar::Calendar;
use calls::terms::{Answer, Call};
use kinds::classed::Classed;
use kinds::points::Points;
use kinds::share::Share;
use plan::Plan;
use runs::{replay, replay_totalled};
use std::alloc::{AllocError, Global};
use std::fmt::Display;
use weights::kind::{OrderedWeight, TotalledWeight};

// A kind that a script may be written in.
pub(crate) trait TalliedWeight: WrittenWeight {
    // Totalled or Counted.
    type Tallies: Tallying<Self>;
}

impl TalliedWeight for Points {
    type Tallies = Totalled;
}

impl TalliedWeight for Classed {
    type Tallies = Totalled;
}

impl TalliedWeight for Share {
    type Tallies = Counted;
}

pub(crate) trait Tallying<W> {
    fn replayed<C: Calendar>(
        plan: &mut Plan,
        calendar: &C,
        store: &mut [W],
        calls: &[Call<W>],
        answers: &mut [Answer],
    ) -> usize;

    fn tally_text(heap: Global, plan: &Plan, store: &[W]) -> Result<String, AllocError>;
}

// The jobs kept and dropped, and both totals.
pub(crate) struct Totalled;

impl<W: TotalledWeight> Tallying<W> for Totalled
where
    W::Total: Display,
{
    fn replayed<C: Calendar>(
        plan: &mut Plan,
        calendar: &C,
        store: &mut [W],
        calls: &[Call<W>],
        answers: &mut [Answer],
    ) -> usize {
        replay_totalled(plan, calendar, store, calls, answers)
    }

    fn tally_text(heap: Global, plan: &Plan, store: &[W]) -> Result<String, AllocError> {
        match plan.tally_totals(store) {
            Ok(tally) => totals_text(
                heap,
                tally.jobs.kept,
                tally.jobs.dropped,
                &tally.kept_total,
                &tally.dropped_total,
            ),
            Err(fault) => refused_text(heap, fault.number()),
        }
    }
}

// The jobs kept and dropped alone.
pub(crate) struct Counted;

impl<W: OrderedWeight> Tallying<W> for Counted {
    fn replayed<C: Calendar>(
        plan: &mut Plan,
        calendar: &C,
        store: &mut [W],
        calls: &[Call<W>],
        answers: &mut [Answer],
    ) -> usize {
        replay(plan, calendar, store, calls, answers)
    }

    fn tally_text(heap: Global, plan: &Plan, store: &[W]) -> Result<String, AllocError> {
        match plan.tally(store) {
            Ok(tally) => counts_text(heap, tally.kept, tally.dropped),
            Err(fault) => refused_text(heap, fault.number()),
        }
    }
}
