// The lines of a text that knows its length, and the hand-over of a text to a lent buffer.
ghost use Rattle.std.specs.Prelude.{◌≡◌, ◌+◌, ◌≤◌, ◌++◌, length};
ghost use Rattle.arrayvec.specs.ArrayString.{array_string_len};
ghost use Rattle.text.specs.Printing.{line_with};
ghost use Rattle.text.specs.Putting.{Delivered};

use crate::fault::BufferFault;
use arrayvec::ArrayString;
use itoa::Buffer;

// Appends a line: a number, a mark and two more numbers. By pieces and no Display: each piece has a known length, so that there is room.
pub(crate) fn push_line<const CAP: usize>(
    text: &mut ArrayString<CAP>,
    number: u16,
    mark: &str,
    first: u16,
    second: u16,
)
    requires { array_string_len text.old + length mark.now + 17 ≤ CAP }
    ensures line { text.new.bytes ≡ text.old.bytes ++ line_with number mark.now first second }
    ensures short { array_string_len text.new ≤ array_string_len text.old + length mark.now + 17 }
{
    let mut digits = Buffer::new();
    text.push_str(digits.format(number));
    text.push_str(mark);
    text.push_str(digits.format(first));
    text.push_str(" ");
    text.push_str(digits.format(second));
    text.push_str("\n");
}

// Puts a text at the buffer's front where it fits, and otherwise leaves the buffer as it is.
pub(crate) fn deliver(text: &str, out: &mut [u8]) -> Result<usize, BufferFault>
    ensures { Delivered text.now out.old out.new result }
{
    if text.len() <= out.len() {
        out[..text.len()].copy_from_slice(text.as_bytes());
        Ok(text.len())
    } else {
        Err(BufferFault::TooShort)
    }
}
