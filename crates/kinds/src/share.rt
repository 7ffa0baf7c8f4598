// A share, n over m, each 1 to 65,535.
ghost use Rattle.std.specs.Prelude.{◌≡◌, ◌≤◌, MatchResult};
ghost use Rattle.weights.specs.declared.fault.WeightFault.TheVariants.{NoWeight};

pub mod weight;

use weights::fault::WeightFault;

// The fraction part over whole; neither is 0. Two different shares may be as heavy, as 1/2 and 2/4.
#[derive(Clone, Copy, Debug, PartialEq, Eq)]
pub struct Share {
    part: u16,
    whole: u16,
    ghost ok: { (1 ≤ part) × (part ≤ 65535) × (1 ≤ whole) × (whole ≤ 65535) },
}

impl Share {
    // The share part over whole; refused exactly where either is 0.
    pub fn new(part: u16, whole: u16) -> Result<Share, WeightFault>
        ensures { MatchResult result (λ s. (s.part ≡ part) × (s.whole ≡ whole)) (λ e. (e ≡ NoWeight) × ((1 ≤ part) × (1 ≤ whole) → ⊥)) }
    {
        if part == 0 || whole == 0 {
            return Err(WeightFault::NoWeight);
        }
        Ok(Share { part, whole })
    }

    // The number above the line.
    pub fn part(&self) -> u16
        ensures { result ≡ self.now.part }
    {
        self.part
    }

    // The number below the line.
    pub fn whole(&self) -> u16
        ensures { result ≡ self.now.whole }
    {
        self.whole
    }
}

// 1 over 1.
impl Default for Share {
    ghost is_default = { λ s. (s.part ≡ 1) × (s.whole ≡ 1) };

    fn default() -> Share {
        Share { part: 1, whole: 1 }
    }
}
