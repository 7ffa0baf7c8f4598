// Weights and their bytes, whatever the kind.
ghost use Rattle.std.specs.Prelude.{◌≡◌, length, if◌then◌else◌, Some, None, nat_eq};

use crate::kind::OrderedWeight;

// Writes the weight into the space and reads it again: the weight itself, exactly where the space has the kind's width.
// Else None, and the space is left as it is.
pub fn through_bytes<W: OrderedWeight>(weight: &W, space: &mut [u8]) -> Option<W>
    ensures value { result ≡ (if nat_eq (length space.old) W.OrderedWeight.WIDTH then Some weight.now else None) }
    ensures leaves { space.new ≡ (if nat_eq (length space.old) W.OrderedWeight.WIDTH then W.OrderedWeight.encoding weight.now else space.old) }
{
    weight.write(space).ok()?;
    W::read(space).ok()
}
