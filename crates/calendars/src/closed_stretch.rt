// A calendar with some links of a stretch of slots closed.
ghost use Rattle.std.specs.Prelude.{◌≡◌, ◌≤◌, MatchResult};
ghost use Rattle.calendars.specs.Bounds.{closed_bound, closed_after};
ghost use Rattle.calendars.specs.Faults.{StretchFault};
ghost use Rattle.calendars.specs.Masks.{closed_mask, ClosedIn};

use crate::calendar::Calendar;
use crate::fault::CalendarFault;

// Ends where the calendar below does. In the slots from `first` up to, and without, `past` the links of the mask `links` are closed.
#[derive(Drop)]
pub struct ClosedStretch<C> {
    below: C,
    first: u16,
    past: u16,
    links: u8,
}

impl<C: Calendar> ClosedStretch<C> {
    // The calendar below with the stretch closed; the stretch may be empty, and may pass the end of the calendar below.
    // A `first` after `past` is refused as `Backwards`; else a `past` over 1,024 as `PastLastSlot`. A refusal gives the calendar below back.
    pub fn new(
        below: C,
        first: u16,
        past: u16,
        links: u8,
    ) -> Result<ClosedStretch<C>, (CalendarFault, C)>
        ensures cases { MatchResult result (λ c. (first ≤ past) × (past ≤ 1024) × (c.below ≡ below) × (c.first ≡ first) × (c.past ≡ past) × (c.links ≡ links) × ClosedIn first past links (C.Calendar.mask below) (closed_mask c.first c.past c.links (C.Calendar.mask c.below))) (λ f. StretchFault first past f.0 × (f.1 ≡ below)) }
    {
        if first > past {
            return Err((CalendarFault::Backwards, below));
        }
        if past > 1024 {
            return Err((CalendarFault::PastLastSlot, below));
        }
        Ok(ClosedStretch {
            below,
            first,
            past,
            links,
        })
    }
}

impl<C: Calendar> Calendar for ClosedStretch<C> {
    ghost end = { λ c. C.Calendar.end c.below };

    ghost mask = { λ c s. closed_mask c.first c.past c.links (C.Calendar.mask c.below) s };

    fn end(&self) -> u16 {
        self.below.end()
    }

    fn mask(&self, slot: u16) -> u8 {
        let open = self.below.mask(slot);
        if (self.first..self.past).contains(&slot) {
            open & !self.links
        } else {
            open
        }
    }

    ghost end_bound = { λ c. C.Calendar.end_bound c.below };

    ghost mask_bound = { λ c s. closed_bound c.first c.past c.links (C.Calendar.mask c.below) s (C.Calendar.mask_bound c.below s) };

    ghost mask_after = { λ c s h. closed_after c.first c.past c.links (C.Calendar.mask c.below) s (C.Calendar.mask_after c.below s h) };
}
