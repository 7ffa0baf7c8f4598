// Numbers as a script writes them: decimal ones, and masks in hexadecimal.
ghost use Rattle.std.specs.Prelude.{◌≡◌};
ghost use Rattle.account.specs.Numbers.{number_of, hex_of, mask_of};

// The number that the digits write; None where the text is no digits, or the number is beyond `most`.
// Read digit by digit, since `str::parse` takes a plus sign too.
fn number_up_to(text: &[u8], most: u32) -> Option<u32>
    ensures { result ≡ number_of most text.now }
{
    if text.is_empty() {
        return None;
    }
    let mut value = 0u64;
    for byte in text {
        if !byte.is_ascii_digit() {
            return None;
        }
        value = 10 * value + (*byte - b'0') as u64;
        if value > most as u64 {
            return None;
        }
    }
    Some(value as u32)
}

// A number up to 4,294,967,295. One line for each width: one function for both would carry the type and the bound.
pub(crate) fn long_number(text: &[u8]) -> Option<u32>
    ensures { result ≡ number_of 4294967295 text.now }
{
    number_up_to(text, u32::MAX)
}

// A number up to 65,535.
pub(crate) fn number(text: &[u8]) -> Option<u16>
    ensures { result ≡ number_of 65535 text.now }
{
    let value = number_up_to(text, 65535)?;
    Some(value as u16)
}

// What a hexadecimal digit of either case is worth.
fn hex_digit(digit: u8) -> Option<u8>
    ensures { result ≡ hex_of digit }
{
    let worth = (digit as char).to_digit(16)?;
    Some(worth as u8)
}

// The mask that one or two hexadecimal digits write.
pub(crate) fn mask(text: &[u8]) -> Option<u8>
    ensures { result ≡ mask_of text.now }
{
    match text {
        [low] => hex_digit(*low),
        [high, low] => Some(16 * hex_digit(*high)? + hex_digit(*low)?),
        _ => None,
    }
}
