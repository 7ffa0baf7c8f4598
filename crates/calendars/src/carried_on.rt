// The last slot of a calendar, carried on to slot 1,023.
ghost use Rattle.std.specs.Prelude.{◌≡◌};
ghost use Rattle.std.proofs.Common.{lit≤};
ghost use Rattle.calendars.specs.Bounds.{carried_bound, none_after};
ghost use Rattle.calendars.specs.Masks.{carried_mask};

use crate::calendar::Calendar;

// Ends at 1,024. Below the end of the calendar below, its masks; from there on the mask of its last slot, or 0 if it has no slot.
#[derive(Drop)]
pub struct CarriedOn<C> {
    below: C,
}

impl<C: Calendar> CarriedOn<C> {
    // The calendar below, carried on; never refused.
    pub fn new(below: C) -> CarriedOn<C>
        ensures made { result.below ≡ below }
    {
        CarriedOn { below }
    }
}

impl<C: Calendar> Calendar for CarriedOn<C> {
    ghost end = { λ _. 1024 };

    ghost mask = { λ c s. carried_mask (C.Calendar.end c.below) (C.Calendar.mask c.below) s };

    fn end(&self) -> u16 {
        1024
    }

    fn mask(&self, slot: u16) -> u8 {
        if slot >= 1024 {
            return 0;
        }
        let end = self.below.end();
        if slot < end {
            self.below.mask(slot)
        } else if end == 0 {
            0
        } else {
            self.below.mask(end - 1)
        }
    }

    ghost end_bound = { λ _. lit≤ tt };

    ghost mask_bound = { λ c s. carried_bound (C.Calendar.end c.below) (C.Calendar.mask c.below) s (C.Calendar.mask_bound c.below) };

    ghost mask_after = { λ c s h. none_after 1024 _ s h };
}
