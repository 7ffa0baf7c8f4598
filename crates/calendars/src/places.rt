// The open places of any calendar: how many there are, up to a slot and in all.
ghost use Rattle.std.specs.Prelude.{◌≡◌, ◌≤◌, true, false, count_ones, is_ok};
ghost use Rattle.calendars.specs.Places.{opens, Counted, SameMasks, SameCounts};

use crate::calendar::Calendar;

// The table of counts has not 1,025 entries.
#[derive(Clone, Copy, Debug, PartialEq, Eq)]
pub struct WrongLength;

// How many links are open in the slot: 0 to 8, and 0 from the end on.
pub fn capacity<C: Calendar>(c: &C, slot: u16) -> u32
    ensures value { (result ≡ count_ones (C.mask c.now slot)) × (result ≤ 8) }
{
    c.mask(slot).count_ones()
}

// How many places are open in the slots below `slot`: from 1,024 on all of them, 8,192 at most.
pub fn places_before<C: Calendar>(c: &C, slot: u16) -> u16
    ensures value { (result ≡ opens (C.mask c.now) slot) × (result ≤ 8192) }
    ensures same { 1024 ≤ slot → result ≡ opens (C.mask c.now) 1024 }
{
    (0..slot.min(1024)).map(|s| capacity(c, s) as u16).sum()
}

// How many places are open in all: 8,192 at most.
pub fn open_places<C: Calendar>(c: &C) -> u16
    ensures value { (result ≡ opens (C.mask c.now) 1024) × (result ≤ 8192) }
{
    places_before(c, 1024)
}

// Fills a lent table of 1,025 entries, so that counts[s] is how many places are open in the slots below s.
// A table of any other length is refused, and left as it is.
pub fn place_counts<C: Calendar>(c: &C, counts: &mut [u16]) -> Result<(), WrongLength>
    ensures answers { Counted (C.mask c.now) counts.old counts.new (is_ok result) }
{
    if counts.len() != 1025 {
        return Err(WrongLength);
    }
    let mut count = 0;
    for (slot, before) in counts.iter_mut().enumerate() {
        *before = count;
        count += capacity(c, slot as u16) as u16;
    }
    Ok(())
}

// Whether two calendars have the same masks; their ends may still differ.
// Where they have, they have equally many open places before each slot.
pub fn same_masks<C: Calendar, D: Calendar>(c: &C, d: &D) -> bool
    ensures answers { elim result [ true ↦ SameMasks (C.Calendar.mask c.now) (D.Calendar.mask d.now) | false ↦ (SameMasks (C.Calendar.mask c.now) (D.Calendar.mask d.now) → ⊥) ] }
    ensures same { SameMasks (C.Calendar.mask c.now) (D.Calendar.mask d.now) → SameCounts (C.Calendar.mask c.now) (D.Calendar.mask d.now) }
{
    (0..1024u16).all(|slot| c.mask(slot) == d.mask(slot))
}
