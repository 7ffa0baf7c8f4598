// What is printed of a kind of weight: its name, and each of its weights.
ghost use Rattle.std.specs.Prelude.{◌≡◌, ℕ, List, Some, codes, refl};
ghost use Rattle.kinds.specs.Printed.{points_text, classed_text, share_text};

use kinds::classed::Classed;
use kinds::points::Points;
use kinds::share::Share;
use std::fmt::Display;
use weights::kind::OrderedWeight;

pub(crate) trait PrintedWeight: OrderedWeight + Display {
    // The kind's name, and a weight, as text.
    ghost called: { List ℕ };

    ghost written: { Self → List ℕ };

    // A function: the names are text for this program only.
    fn kind_name() -> &'static str
        ensures { result.now ≡ called };

    ghost prints: { (w : Self) → Self.Display.output w ≡ Some (written w) };
}

impl PrintedWeight for Points {
    ghost called = { codes "points" };

    ghost written = { points_text };

    ghost prints = { λ _. refl };

    fn kind_name() -> &'static str {
        "points"
    }
}

impl PrintedWeight for Classed {
    ghost called = { codes "classed" };

    ghost written = { classed_text };

    ghost prints = { λ _. refl };

    fn kind_name() -> &'static str {
        "classed"
    }
}

impl PrintedWeight for Share {
    ghost called = { codes "share" };

    ghost written = { share_text };

    ghost prints = { λ _. refl };

    fn kind_name() -> &'static str {
        "share"
    }
}
