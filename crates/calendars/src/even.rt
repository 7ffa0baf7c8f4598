// The same links in each slot below the end.
ghost use Rattle.std.specs.Prelude.{◌≡◌, ◌≤◌, MatchResult};
ghost use Rattle.calendars.specs.Bounds.{even_bound, none_after};
ghost use Rattle.calendars.specs.Faults.{EvenFault};
ghost use Rattle.calendars.specs.Masks.{even_mask, EvenlyOpen};

use crate::calendar::Calendar;
use crate::fault::CalendarFault;

// The lowest `links` links are open in each slot below the end, and none from there on.
#[derive(Drop)]
pub struct Even {
    links: u8,
    end: u16,
    ghost few: { links ≤ 8 },
    ghost short: { end ≤ 1024 },
}

impl Even {
    // An even calendar of 0 to 8 links with an end of 0 to 1,024.
    // More links are refused as `TooManyLinks`; else a greater end as `TooLong`.
    pub fn new(links: u8, end: u16) -> Result<Even, CalendarFault>
        ensures cases { MatchResult result (λ c. (links ≤ 8) × (end ≤ 1024) × (c.links ≡ links) × (c.end ≡ end) × EvenlyOpen links end (even_mask c.links c.end)) (EvenFault links end) }
    {
        if links > 8 {
            return Err(CalendarFault::TooManyLinks);
        }
        if end > 1024 {
            return Err(CalendarFault::TooLong);
        }
        Ok(Even { links, end })
    }
}

impl Calendar for Even {
    ghost end = { λ c. c.end };

    ghost mask = { λ c s. even_mask c.links c.end s };

    fn end(&self) -> u16 {
        self.end
    }

    fn mask(&self, slot: u16) -> u8 {
        if slot < self.end {
            ((1u16 << self.links) - 1) as u8
        } else {
            0
        }
    }

    ghost end_bound = { λ c. c.short };

    ghost mask_bound = { λ c s. even_bound c.links c.end s c.few };

    ghost mask_after = { λ c s h. none_after c.end _ s h };
}
