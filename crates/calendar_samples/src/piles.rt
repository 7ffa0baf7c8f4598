// Three piles of calendars, each asked for the mask of a slot: by value, of borrowed bytes, and over a lent calendar.
ghost use Rattle.std.specs.Prelude.{◌≡◌, ◌≤◌, ◌⊎◌, length, MatchResult};
ghost use Rattle.calendars.specs.Faults.{EvenFault, ListedFault, StretchFault};
ghost use Rattle.calendars.specs.Masks.{even_mask, listed_mask, carried_mask, closed_mask};

use calendars::calendar::Calendar;
use calendars::carried_on::CarriedOn;
use calendars::closed_stretch::ClosedStretch;
use calendars::even::Even;
use calendars::fault::CalendarFault;
use calendars::listed::Listed;

// The mask of a slot of an even calendar that is carried on; refused as the even calendar is.
pub fn even_carried_on(links: u8, end: u16, slot: u16) -> Result<u8, CalendarFault>
    ensures cases { MatchResult result (λ m. (links ≤ 8) × (end ≤ 1024) × (m ≡ carried_mask end (even_mask links end) slot)) (EvenFault links end) }
{
    let pile = CarriedOn::new(Even::new(links, end)?);
    Ok(pile.mask(slot))
}

// The mask of a slot of listed masks that are carried on, with the links of `closed` closed from slot `first` up to, and without, `past`.
// A list that is too long is refused first, and then the stretch.
pub fn listed_closed(
    masks: &[u8],
    first: u16,
    past: u16,
    closed: u8,
    slot: u16,
) -> Result<u8, CalendarFault>
    ensures cases { MatchResult result (λ m. (length masks.now ≤ 1024) × (first ≤ past) × (past ≤ 1024) × (m ≡ closed_mask first past closed (carried_mask (length masks.now) (listed_mask masks.now)) slot)) (λ f. ListedFault (length masks.now) f ⊎ ((length masks.now ≤ 1024) × StretchFault first past f)) }
{
    let carried = CarriedOn::new(Listed::new(masks)?);
    let pile = ClosedStretch::new(carried, first, past, closed).map_err(|(fault, _)| fault)?;
    Ok(pile.mask(slot))
}

// The mask of a slot of any calendar, only lent, that is carried on.
pub fn lent_carried_on<C: Calendar>(c: &C, slot: u16) -> u8
    ensures value { result ≡ carried_mask (C.Calendar.end c.now) (C.Calendar.mask c.now) slot }
{
    CarriedOn::new(c).mask(slot)
}
