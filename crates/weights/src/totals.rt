// Totals of weights, whatever their kind.
ghost use Rattle.std.specs.Prelude.{◌≡◌, true, take, IfSome, fold, MatchOption};
ghost use Rattle.weights.specs.Picking.{Counted, picked_of};

use crate::kind::{OrderedWeight, TotalledWeight};

// The total of the picked ones of the first n weights, since a store is longer than what it serves; None exactly where n is above 256
// or above a length.
pub fn total_of<W: TotalledWeight>(weights: &[W], picked: &[bool], n: usize) -> Option<W::Total>
    ensures { MatchOption result (Counted n picked.now weights.now → ⊥) (λ t. Counted n picked.now weights.now × (t ≡ fold W.TotalledWeight.plus W.TotalledWeight.nothing (picked_of (take n picked.now) (take n weights.now)))) }
{
    if n > 256 || n > picked.len() || n > weights.len() {
        return None;
    }
    let mut total = W::nothing();
    for (weight, is_picked) in weights[..n].iter().zip(picked) {
        if *is_picked {
            total = W::add(total, weight)?;
        }
    }
    Some(total)
}

// Whether the total with a added is at least as heavy as the total with b added, which it is where a is no lighter than b.
// None only where the type of totals cannot hold one of the two.
pub fn adds_at_least<W: TotalledWeight>(total: W::Total, a: &W, b: &W) -> Option<bool>
    ensures value { MatchOption result ((W.TotalledWeight.fits (W.TotalledWeight.plus total a.now)) × (W.TotalledWeight.fits (W.TotalledWeight.plus total b.now)) → ⊥) (λ s. s ≡ W.TotalledWeight.over (W.TotalledWeight.plus total a.now) (W.TotalledWeight.plus total b.now)) }
    ensures agrees { W.OrderedWeight.no_lighter a.now b.now ≡ true → IfSome result (λ s. s ≡ true) }
{
    let with_a = W::add(total, a)?;
    let with_b = W::add(total, b)?;
    Some(W::at_least_total(&with_a, &with_b))
}
