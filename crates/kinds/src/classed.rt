// A weight with a class and points, 1 to 65,535.
ghost use Rattle.std.specs.Prelude.{◌≡◌, ◌≤◌, MatchResult};
ghost use Rattle.weights.specs.declared.fault.WeightFault.TheVariants.{NoWeight};
ghost use Rattle.kinds.specs.ClassLevels.{class_level};

pub mod weight;

use crate::class::Class;
use weights::fault::WeightFault;

// A class, and points that count within the class; never none. The greater is the heavier: by class, then by points.
#[derive(Clone, Copy, Debug, PartialEq, Eq, PartialOrd, Ord)]
pub struct Classed {
    class: Class,
    points: u16,
    ghost ok: { (1 ≤ points) × (points ≤ 65535) },
}

impl Classed {
    // A weight of the class with that level, 0 for QM to 4 for D, and that many points; refused exactly where the level is
    // above 4 or there are no points. The level and no class, as sheets write it.
    pub fn new(class: u8, points: u16) -> Result<Classed, WeightFault>
        ensures { MatchResult result (λ w. (class_level w.class ≡ class) × (w.points ≡ points)) (λ e. (e ≡ NoWeight) × ((class ≤ 4) × (1 ≤ points) → ⊥)) }
    {
        let class = Class::try_from(class)?;
        if points == 0 {
            return Err(WeightFault::NoWeight);
        }
        Ok(Classed { class, points })
    }

    // The class.
    pub fn class(&self) -> Class
        ensures { result ≡ self.now.class }
    {
        self.class
    }

    // The points within the class.
    pub fn points(&self) -> u16
        ensures { result ≡ self.now.points }
    {
        self.points
    }
}

// One point of class QM.
impl Default for Classed {
    ghost is_default = { λ w. (class_level w.class ≡ 0) × (w.points ≡ 1) };

    fn default() -> Classed {
        Classed {
            class: Class::Qm,
            points: 1,
        }
    }
}

// The points of each class, summed, from class D down. The greater is the heavier.
#[derive(Clone, Copy, Debug, PartialEq, Eq, PartialOrd, Ord)]
pub struct ClassedTotal {
    sums: [u32; 5],
}

impl ClassedTotal {
    // The five sums, from class D down to QM.
    pub fn sums(&self) -> [u32; 5]
        ensures { result ≡ self.now.sums }
    {
        self.sums
    }
}
