// What a calendar is: where it ends, and which links are open in each slot.
ghost use Rattle.std.specs.Prelude.{◌≡◌, ℕ, ◌<◌, ◌≤◌};

// A calendar means its end, a slot number from 0 to 1,024, and a mask of eight bits for each slot, 0 from the end on:
// bit l of the mask is set where link l is open. Both questions are answered from that meaning, whatever the slot's number.
pub trait Calendar {
    ghost end: { Self → ℕ };

    ghost mask: { Self → ℕ → ℕ };

    // The end: from this slot on no link is open.
    fn end(&self) -> u16
        ensures value { result ≡ end self.now };

    // The mask of the slot; 0 from the end on.
    fn mask(&self, slot: u16) -> u8
        ensures value { result ≡ mask self.now slot };

    // A calendar ends by slot 1,024.
    ghost end_bound: { (c : Self) → end c ≤ 1024 };

    // A slot's mask has eight bits, one for each link.
    ghost mask_bound: { (c : Self) (s : ℕ) → mask c s < 256 };

    // From the end on no link is open.
    ghost mask_after: { (c : Self) (s : ℕ) → end c ≤ s → mask c s ≡ 0 };
}
