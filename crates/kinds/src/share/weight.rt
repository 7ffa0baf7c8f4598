// Shares as a kind of weight: the part in two bytes, then the whole in two; n/m is no lighter than p/q where n*q is at least
// p*m. Shares have no total.
ghost use Rattle.kinds.specs.ShareKind.{share_encoding, share_no_lighter};
ghost use Rattle.std.proofs.lemmas.Bool.{leb-true, le-leb};
ghost use Rattle.kinds.specs.ShareFacts.{cross, share_same, share_parts};
ghost use Rattle.std.proofs.Common.{arith, rules};

use crate::share::Share;
use weights::fault::{WeightFault, WrongWidth};
use weights::kind::OrderedWeight;

impl OrderedWeight for Share {
    const CODE: u8 = 3;

    const WIDTH: usize = 4;

    ghost CODE = { 3 };

    ghost WIDTH = { 4 };

    ghost no_lighter = { share_no_lighter };

    ghost encoding = { share_encoding };

    ghost coded = { Prim.search rules };

    ghost narrow = { Prim.search rules };

    ghost total = { Prim.search rules };

    ghost transitive = { λ a b c p q. le-leb _ _ (cross a.part a.whole b.part b.whole c.part c.whole b.ok.2 (leb-true _ _ p) (leb-true _ _ q)) };

    ghost sized = { Prim.search rules };

    ghost octets = { Prim.search rules };

    ghost injective = { λ s t e.
        let parts = share_parts s.part s.whole t.part t.whole (omega arith) (omega arith) (omega arith) (omega arith) e in
        share_same s t parts.0 parts.1 };

    // No derived order: two different shares may weigh the same.
    fn at_least(&self, other: &Share) -> bool {
        self.part as u32 * other.whole as u32 >= other.part as u32 * self.whole as u32
    }

    fn read(bytes: &[u8]) -> Result<Share, WeightFault> {
        let [a, b, c, d] = bytes else {
            return Err(WeightFault::NoWeight);
        };
        Share::new(u16::from_be_bytes([*a, *b]), u16::from_be_bytes([*c, *d]))
    }

    // A guard and a copy, as in each kind: one function for both would be no shorter.
    fn write(&self, space: &mut [u8]) -> Result<(), WrongWidth> {
        if space.len() != Self::WIDTH {
            return Err(WrongWidth);
        }
        let [a, b] = self.part.to_be_bytes();
        let [c, d] = self.whole.to_be_bytes();
        space.copy_from_slice(&[a, b, c, d]);
        Ok(())
    }
}
