// A mask for each slot, in bytes of the caller's.
ghost use Rattle.std.specs.Prelude.{◌≡◌, ℕ, ◌%◌, ◌<◌, ◌≤◌, length, MatchResult, slice_index};
ghost use Rattle.calendars.specs.Bounds.{listed_end_bound, listed_bound, none_after};
ghost use Rattle.calendars.specs.Faults.{ListedFault};
ghost use Rattle.calendars.specs.Masks.{listed_end, listed_mask};

use crate::calendar::Calendar;
use crate::fault::CalendarFault;

// One byte for each slot, borrowed: it ends where the bytes do.
#[derive(Drop)]
pub struct Listed<'a> {
    masks: &'a [u8],
    ghost short: { length masks.now ≤ 1024 },
}

impl<'a> Listed<'a> {
    // The calendar of 0 to 1,024 listed masks; a longer list is refused as `TooLong`.
    pub fn new(masks: &'a [u8]) -> Result<Listed<'a>, CalendarFault>
        ensures cases { MatchResult result (λ c. (length masks.now ≤ 1024) × (c.masks.now ≡ masks.now) × (listed_end c.masks.now ≡ length masks.now) × ((s : ℕ) → s < length masks.now → listed_mask c.masks.now s ≡ slice_index masks.now s % 256)) (ListedFault (length masks.now)) }
    {
        if masks.len() > 1024 {
            return Err(CalendarFault::TooLong);
        }
        Ok(Listed { masks })
    }
}

impl Calendar for Listed<'_> {
    ghost end = { λ c. listed_end c.masks.now };

    ghost mask = { λ c s. listed_mask c.masks.now s };

    fn end(&self) -> u16 {
        self.masks.len() as u16
    }

    fn mask(&self, slot: u16) -> u8 {
        self.masks.get(usize::from(slot)).copied().unwrap_or(0)
    }

    ghost end_bound = { λ c. listed_end_bound c.masks.now };

    ghost mask_bound = { λ c s. listed_bound c.masks.now s };

    ghost mask_after = { λ c s h. none_after (listed_end c.masks.now) _ s h };
}
