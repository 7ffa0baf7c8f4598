// The kinds of weight: what a kind owes, whether or not its weights can be totalled.
ghost use Rattle.std.specs.Prelude.{◌≡◌, ℕ, ◌≤◌, Bool, true, ◌⊎◌, List, length, if◌then◌else◌, fold, MatchOption, MatchResult, ◌==◌, ◌≢◌};
ghost use Rattle.std.specs.Result.{is_ok};
ghost use Rattle.weights.specs.Kind.{Octets, Agrees};

use crate::fault::{WeightFault, WrongWidth};

// A kind of weight. Its meaning is the relation 'no lighter' and the bytes of each weight.
pub trait OrderedWeight: Copy {
    // The kind's code in a sheet: a number, since there may be kinds that no list of ours has.
    const CODE: u8;

    // How many bytes a weight takes.
    const WIDTH: usize;

    // The two constants for clauses: a kind states them once more, and the check compares.
    ghost CODE: { ℕ };

    ghost WIDTH: { ℕ };

    // `no_lighter a b`: a is at least as heavy as b. Two different weights may each be so.
    ghost no_lighter: { Self → Self → Bool };

    // The bytes of a weight.
    ghost encoding: { Self → List ℕ };

    fn at_least(&self, other: &Self) -> bool
        ensures { result ≡ no_lighter self.now other.now };

    // The weight with these bytes; refused exactly when they are no weight of the kind.
    fn read(bytes: &[u8]) -> Result<Self, WeightFault>
        ensures { MatchResult result (λ w. encoding w ≡ bytes.now) (λ _. (w : Self) → encoding w ≢ bytes.now) };

    // Writes the weight's bytes over a space of the kind's width; a space of any other length is refused and left as it is.
    fn write(&self, space: &mut [u8]) -> Result<(), WrongWidth>
        ensures answers { is_ok result ≡ (length space.old == WIDTH) }
        ensures leaves { space.new ≡ (if is_ok result then encoding self.now else space.old) };

    ghost coded: { CODE ≤ 255 };

    ghost narrow: { WIDTH ≤ 65529 };

    ghost total: { (a b : Self) → (no_lighter a b ≡ true) ⊎ (no_lighter b a ≡ true) };

    ghost transitive: { (a b c : Self) → no_lighter a b ≡ true → no_lighter b c ≡ true → no_lighter a c ≡ true };

    ghost sized: { (w : Self) → length (encoding w) ≡ WIDTH };

    ghost octets: { (w : Self) → Octets (encoding w) };

    ghost injective: { (a b : Self) → encoding a ≡ encoding b → a ≡ b };
}

// A kind whose weights can be totalled.
pub trait TotalledWeight: OrderedWeight {
    type Total: Copy;

    // The total of no weights.
    ghost nothing: { Self.Total };

    ghost plus: { Self.Total → Self → Self.Total };

    // `over s t`: the total s is at least as heavy as t.
    ghost over: { Self.Total → Self.Total → Bool };

    // The type of totals can hold it.
    ghost fits: { Self.Total → Type 0 };

    fn nothing() -> Self::Total
        ensures value { result ≡ nothing }
        ensures agrees { Agrees Self.OrderedWeight.no_lighter plus over };

    // One weight more; None exactly where the type cannot hold it, which 256 weights never reach.
    fn add(total: Self::Total, weight: &Self) -> Option<Self::Total>
        ensures value { MatchOption result (fits (plus total weight.now) → ⊥) (λ s. s ≡ plus total weight.now) }
        ensures agrees { Agrees Self.OrderedWeight.no_lighter plus over };

    fn at_least_total(s: &Self::Total, t: &Self::Total) -> bool
        ensures { result ≡ over s.now t.now };

    ghost ordered: { (s t : Self.Total) → (over s t ≡ true) ⊎ (over t s ≡ true) };

    ghost chained: { (s t u : Self.Total) → over s t ≡ true → over t u ≡ true → over s u ≡ true };

    ghost antisymmetric: { (s t : Self.Total) → over s t ≡ true → over t s ≡ true → s ≡ t };

    ghost commutes: { (t : Self.Total) (a b : Self) → plus (plus t a) b ≡ plus (plus t b) a };

    ghost keeps: { (s t : Self.Total) (a : Self) → over s t ≡ true → over (plus s a) (plus t a) ≡ true };

    ghost grows: { (t : Self.Total) (a : Self) → over (plus t a) t ≡ true };

    ghost room: { (ws : List Self) → length ws ≤ 256 → fits (fold plus nothing ws) };
}
