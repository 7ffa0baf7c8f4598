// The load of a job sheet.
ghost use Rattle.std.specs.Prelude.{◌≡◌, MatchResult, OnErr};
ghost use Rattle.calls.specs.Moments.{at};
ghost use Rattle.plan.specs.Plans.{rows_in};
ghost use Rattle.plan.specs.Loading.{Loaded, LoadRefused};

use crate::planner::Plan;
use crate::refusal::LoadRefusal;
use calendars::carried_on::CarriedOn;
use calendars::listed::Listed;
use sheets::reader::read;
use weights::kind::OrderedWeight;

impl Plan {
    // Opens the plan anew with the jobs of a sheet, all or none, under the listed calendar of the sheet's masks, ending or carried on,
    // and hands out these masks. Refused for a store under 256 entries (14), and then exactly as the reader refuses the sheet; plan and
    // store are then as before. A loaded plan is the plan of the sheet's jobs, so that a run of calls under this calendar may begin with it.
    // A flag says which of two forms the calendar has, since it is made here.
    pub fn load<'a, W: OrderedWeight>(
        &mut self,
        store: &mut [W],
        sheet: &'a [u8],
        carried_on: bool,
    ) -> Result<&'a [u8], LoadRefusal>
        ensures cases { MatchResult result (λ masks. Loaded W.OrderedWeight.CODE W.OrderedWeight.WIDTH W.OrderedWeight.encoding W.OrderedWeight.no_lighter carried_on sheet.now masks.now (at (rows_in self.old) store.old) (at (rows_in self.new) store.new)) (LoadRefused W.OrderedWeight.CODE W.OrderedWeight.WIDTH W.OrderedWeight.encoding sheet.now store.old) }
        ensures refused { OnErr result ((self.new ≡ self.old) × (store.new ≡ store.old)) }
    {
        // Tested first, since this refusal comes before the reader's.
        if store.len() < 256 {
            return Err(LoadRefusal::StoreTooShort);
        }
        let accepted = read::<W>(sheet)?;
        let masks = accepted.masks();
        // A sheet that was read has at most 1,024 masks, so that its calendar is always made.
        let calendar = Listed::new(masks).unwrap();
        // The reader has seen that a table takes the jobs.
        if carried_on {
            self.fill_admitted(&CarriedOn::new(calendar), store, &accepted);
        } else {
            self.fill_admitted(&calendar, store, &accepted);
        }
        Ok(masks)
    }
}
