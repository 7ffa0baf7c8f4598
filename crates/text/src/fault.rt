// Why no text is put into a buffer.
ghost use Rattle.std.specs.Prelude.{◌≡◌, Some, codes};

use std::error::Error;
use std::fmt;

#[derive(Clone, Copy, Debug, PartialEq, Eq)]
pub enum BufferFault {
    // The text is longer than the buffer.
    TooShort = 15,
}

impl BufferFault {
    ghost use Rattle.text.specs.Faults.{buffer_fault_number};

    // The refusal's number.
    pub fn number(&self) -> u8
        ensures { result ≡ buffer_fault_number self.now }
    {
        *self as u8
    }
}

impl fmt::Display for BufferFault {
    ghost output = { λ _. Some (codes "the text is too long") };

    fn fmt<W: fmt::Write>(&self, f: &mut fmt::Formatter<W>) -> fmt::Result {
        f.write_str("the text is too long")
    }
}

impl Error for BufferFault {}
