// One record of a sheet: a one-byte tag, the length of its value in two bytes, the value.
ghost use Rattle.std.specs.Result.{MatchResult};
ghost use Rattle.sheets.specs.Format.{Framed, FrameFault};
ghost use Rattle.sheets.specs.Tags.{tag_byte};

use crate::fault::SheetFault;
use crate::tag::Tag;

// The value of the record at the front of `rest`, where one with the tag `wanted` and a value of `least` to `most` bytes is due;
// else the first cause against its frame. Where nothing is left the record is missing, which is a fault of order.
pub(crate) fn record_value(
    rest: &[u8],
    wanted: Tag,
    least: usize,
    most: usize,
) -> Result<&[u8], SheetFault>
    ensures { MatchResult result (λ value. Framed (tag_byte wanted) least most rest.now value.now) (λ fault. FrameFault (tag_byte wanted) least most rest.now fault) }
{
    if rest.is_empty() {
        return Err(SheetFault::OutOfOrder);
    }
    let [tag, high, low, body @ ..] = rest else {
        return Err(SheetFault::EndsInside);
    };
    if Tag::try_from(*tag)? != wanted {
        return Err(SheetFault::OutOfOrder);
    }
    let length = usize::from(u16::from_be_bytes([*high, *low]));
    if !(least..=most).contains(&length) {
        return Err(SheetFault::WrongLength);
    }
    body.get(..length).ok_or(SheetFault::EndsInside)
}
