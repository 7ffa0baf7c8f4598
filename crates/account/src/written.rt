// Weights as a script writes them: points as a number, classed as the class, a colon and the points, a share as a fraction.
ghost use Rattle.std.specs.Prelude.{◌≡◌, ℕ, List, Option};
ghost use Rattle.std.specs.Option.{option_map};
ghost use Rattle.kinds.specs.ClassLevels.{class_level};
ghost use Rattle.account.specs.Weights.{level_of, points_in, classed_in, share_in, points_figures, classed_figures, share_figures, answer_figures};

use crate::numbers::{long_number, number};
use crate::words::cut;
use kinds::class::Class;
use kinds::classed::Classed;
use kinds::points::Points;
use kinds::share::Share;
use weights::fault::WeightFault;
use weights::kind::OrderedWeight;

pub(crate) trait WrittenWeight: OrderedWeight + Default {
    // The figures of a weight, and those that a text writes.
    ghost figures: { Self → List ℕ };

    ghost figures_in: { List ℕ → Option (Option (List ℕ)) };

    // None where the text has not the kind's form, an error where it is out of range.
    // No FromStr: a script is bytes, and a wrong form and a wrong range end differently.
    fn parse(text: &[u8]) -> Option<Result<Self, WeightFault>>
        ensures { option_map (answer_figures figures) result ≡ figures_in text.now };
}

// The class of that name. No FromStr: a script is bytes, and a wrong name is no command rather than a refusal.
fn class_named(name: &[u8]) -> Option<Class>
    ensures { option_map class_level result ≡ level_of name.now }
{
    match name {
        b"QM" => Some(Class::Qm),
        b"A" => Some(Class::A),
        b"B" => Some(Class::B),
        b"C" => Some(Class::C),
        b"D" => Some(Class::D),
        _ => None,
    }
}

impl WrittenWeight for Points {
    ghost figures = { points_figures };

    ghost figures_in = { points_in };

    fn parse(text: &[u8]) -> Option<Result<Points, WeightFault>> {
        long_number(text).map(Points::new)
    }
}

impl WrittenWeight for Classed {
    ghost figures = { classed_figures };

    ghost figures_in = { classed_in };

    fn parse(text: &[u8]) -> Option<Result<Classed, WeightFault>> {
        let (name, points) = cut(text, b':')?;
        let class = class_named(name)?;
        let points = number(points)?;
        Some(Classed::new(class.level(), points))
    }
}

impl WrittenWeight for Share {
    ghost figures = { share_figures };

    ghost figures_in = { share_in };

    fn parse(text: &[u8]) -> Option<Result<Share, WeightFault>> {
        let (part, whole) = cut(text, b'/')?;
        let part = number(part)?;
        let whole = number(whole)?;
        Some(Share::new(part, whole))
    }
}
