// Points as a kind of weight: four bytes; more points are heavier, and a total is the sum.
ghost use Rattle.kinds.specs.PointsKind.{points_encoding, points_no_lighter, points_nothing, points_plus, points_over, points_fits};
ghost use Rattle.std.proofs.Common.{arith, rules};
ghost use Rattle.kinds.specs.HighFirst.{high_first_injective};
ghost use Rattle.kinds.specs.PointsFacts.{points_same, sum_bound};

use crate::points::{Points, PointsTotal};
use weights::fault::{WeightFault, WrongWidth};
use weights::kind::{OrderedWeight, TotalledWeight};

impl OrderedWeight for Points {
    const CODE: u8 = 1;

    const WIDTH: usize = 4;

    ghost CODE = { 1 };

    ghost WIDTH = { 4 };

    ghost no_lighter = { points_no_lighter };

    ghost encoding = { points_encoding };

    ghost coded = { Prim.search rules };

    ghost narrow = { Prim.search rules };

    ghost total = { Prim.search rules };

    ghost transitive = { Prim.search rules };

    ghost sized = { Prim.search rules };

    ghost octets = { Prim.search rules };

    ghost injective = { λ p q e. points_same p q (high_first_injective 4 p.count q.count (omega arith) (omega arith) e) };

    fn at_least(&self, other: &Points) -> bool {
        self >= other
    }

    fn read(bytes: &[u8]) -> Result<Points, WeightFault> {
        let [a, b, c, d] = bytes else {
            return Err(WeightFault::NoWeight);
        };
        Points::new(u32::from_be_bytes([*a, *b, *c, *d]))
    }

    // A guard and a copy, as in each kind: one function for both would be no shorter.
    fn write(&self, space: &mut [u8]) -> Result<(), WrongWidth> {
        if space.len() != Self::WIDTH {
            return Err(WrongWidth);
        }
        space.copy_from_slice(&self.count.to_be_bytes());
        Ok(())
    }
}

impl TotalledWeight for Points {
    type Total = PointsTotal;

    ghost nothing = { points_nothing };

    ghost plus = { points_plus };

    ghost over = { points_over };

    ghost fits = { points_fits };

    ghost ordered = { Prim.search rules };

    ghost chained = { Prim.search rules };

    ghost antisymmetric = { Prim.search rules };

    ghost commutes = { Prim.search rules };

    ghost keeps = { Prim.search rules };

    ghost grows = { Prim.search rules };

    ghost room = { λ ws h. let b = sum_bound points_nothing ws in omega arith };

    fn nothing() -> PointsTotal {
        PointsTotal { sum: 0 }
    }

    fn add(total: PointsTotal, weight: &Points) -> Option<PointsTotal> {
        let sum = total.sum.checked_add(weight.count as u64)?;
        Some(PointsTotal { sum })
    }

    fn at_least_total(s: &PointsTotal, t: &PointsTotal) -> bool {
        s >= t
    }
}
