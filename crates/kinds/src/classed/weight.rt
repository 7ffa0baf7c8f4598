// Classed weights as a kind: the class in a byte, then the points in two. The higher class is heavier, then more points;
// a total is a sum for each class, compared from class D down.
ghost use Rattle.kinds.specs.ClassedKind.{classed_encoding, classed_no_lighter, classed_nothing, classed_plus, classed_over, classed_fits};
ghost use Rattle.std.proofs.Common.{arith, rules, ap};
ghost use Rattle.kinds.specs.ClassLevels.{class_level};
ghost use Rattle.kinds.specs.ClassedFacts.{classed_same, classed_parts, classed_room};
ghost use Rattle.kinds.specs.Sums.{lex_total, lex_trans, lex_anti, add_comm_at, add_keeps, add_grows};
ghost use Rattle.std.specs.Prelude.{ℕ, ◌-◌, List};

use crate::classed::{Classed, ClassedTotal};
use weights::fault::{WeightFault, WrongWidth};
use weights::kind::{OrderedWeight, TotalledWeight};

impl OrderedWeight for Classed {
    const CODE: u8 = 2;

    const WIDTH: usize = 3;

    ghost CODE = { 2 };

    ghost WIDTH = { 3 };

    ghost no_lighter = { classed_no_lighter };

    ghost encoding = { classed_encoding };

    ghost coded = { Prim.search rules };

    ghost narrow = { Prim.search rules };

    ghost total = { Prim.search rules };

    ghost transitive = { Prim.search rules };

    ghost sized = { Prim.search rules };

    ghost octets = { Prim.search rules };

    ghost injective = { λ v w e.
        let parts = classed_parts (class_level v.class) v.points (class_level w.class) w.points (omega arith) (omega arith) e in
        classed_same v w parts.0 parts.1 };

    fn at_least(&self, other: &Classed) -> bool {
        self >= other
    }

    fn read(bytes: &[u8]) -> Result<Classed, WeightFault> {
        let [class, high, low] = bytes else {
            return Err(WeightFault::NoWeight);
        };
        Classed::new(*class, u16::from_be_bytes([*high, *low]))
    }

    // A guard and a copy, as in each kind: one function for both would be no shorter.
    fn write(&self, space: &mut [u8]) -> Result<(), WrongWidth> {
        if space.len() != Self::WIDTH {
            return Err(WrongWidth);
        }
        let [high, low] = self.points.to_be_bytes();
        space.copy_from_slice(&[self.class.level(), high, low]);
        Ok(())
    }
}

impl TotalledWeight for Classed {
    type Total = ClassedTotal;

    ghost nothing = { classed_nothing };

    ghost plus = { classed_plus };

    ghost over = { classed_over };

    ghost fits = { classed_fits };

    ghost ordered = { λ s t. lex_total s.sums t.sums };

    ghost chained = { λ s t u. lex_trans s.sums t.sums u.sums };

    ghost antisymmetric = { λ s t p q. ap (λ (xs : List ℕ). record { sums = xs }) (lex_anti s.sums t.sums p q) };

    ghost commutes = { λ t a b. ap (λ (xs : List ℕ). record { sums = xs }) (add_comm_at t.sums (4 - class_level a.class) (4 - class_level b.class) a.points b.points) };

    ghost keeps = { λ s t a. add_keeps s.sums t.sums (4 - class_level a.class) a.points };

    ghost grows = { λ t a. add_grows t.sums (4 - class_level a.class) a.points };

    ghost room = { classed_room };

    fn nothing() -> ClassedTotal {
        ClassedTotal { sums: [0; 5] }
    }

    fn add(total: ClassedTotal, weight: &Classed) -> Option<ClassedTotal> {
        let mut sums = total.sums;
        let place = 4 - weight.class.level() as usize;
        let sum = sums[place].checked_add(weight.points as u32)?;
        sums[place] = sum;
        Some(ClassedTotal { sums })
    }

    fn at_least_total(s: &ClassedTotal, t: &ClassedTotal) -> bool {
        s >= t
    }
}
