// The open links of a slot, counted from the lowest.
ghost use Rattle.std.specs.Prelude.{◌<◌, ◌≤◌, Decides, MatchOption, count_ones};
ghost use Rattle.calendars.specs.Places.{KthOpen};

use crate::calendar::Calendar;

// The link that is open in the slot and has exactly `k` open links below it; None where the slot has at most `k` open links.
pub fn kth_open_link<C: Calendar>(c: &C, slot: u16, k: u8) -> Option<u8>
    ensures cases { MatchOption result (count_ones (C.mask c.now slot) ≤ k) (λ link. (k < count_ones (C.mask c.now slot)) × KthOpen (C.mask c.now slot) k link) }
{
    kth_bit(c.mask(slot), k)
}

// The place of the set bit of the mask that has exactly `k` set bits below it.
fn kth_bit(mask: u8, k: u8) -> Option<u8>
    ensures cases { MatchOption result (count_ones mask ≤ k) (λ bit. (k < count_ones mask) × KthOpen mask k bit) }
{
    (0..8u8).find(
        |bit|
            requires { bit.now < 8 }
        { is_kth(mask, *bit, k) },
    )
}

// Whether the bit is set, with exactly `k` set bits below it.
fn is_kth(mask: u8, bit: u8, k: u8) -> bool
    requires { bit < 8 }
    ensures { Decides result (KthOpen mask k bit) }
{
    let below = mask & ((1 << bit) - 1);
    (mask >> bit) % 2 == 1 && below.count_ones() == u32::from(k)
}
