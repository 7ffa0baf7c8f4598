// A weight of points, 1 to 4,294,967,295.
ghost use Rattle.std.specs.Prelude.{◌≡◌, ◌≤◌, MatchResult};
ghost use Rattle.weights.specs.declared.fault.WeightFault.TheVariants.{NoWeight};

pub mod weight;

use weights::fault::WeightFault;

// How many points a job is worth; never none. The greater is the heavier.
#[derive(Clone, Copy, Debug, PartialEq, Eq, PartialOrd, Ord)]
pub struct Points {
    count: u32,
    ghost ok: { (1 ≤ count) × (count ≤ 4294967295) },
}

impl Points {
    // A weight of that many points; refused exactly where there are none.
    pub fn new(count: u32) -> Result<Points, WeightFault>
        ensures { MatchResult result (λ p. p.count ≡ count) (λ e. (e ≡ NoWeight) × (count ≡ 0)) }
    {
        if count == 0 {
            return Err(WeightFault::NoWeight);
        }
        Ok(Points { count })
    }

    // How many points.
    pub fn count(&self) -> u32
        ensures { result ≡ self.now.count }
    {
        self.count
    }
}

// One point.
impl Default for Points {
    ghost is_default = { λ p. p.count ≡ 1 };

    fn default() -> Points {
        Points { count: 1 }
    }
}

// The sum of some points. The greater is the heavier.
#[derive(Clone, Copy, Debug, PartialEq, Eq, PartialOrd, Ord)]
pub struct PointsTotal {
    sum: u64,
}

impl PointsTotal {
    // The sum.
    pub fn sum(&self) -> u64
        ensures { result ≡ self.now.sum }
    {
        self.sum
    }
}
