// Standings and seats as text.
ghost use Rattle.std.specs.Prelude.{◌≡◌, Some};
ghost use Rattle.jobs.specs.Printed.{standing_text, place_text};

use crate::terms::{Seat, Standing};
use std::fmt;
use std::fmt::{Display, Formatter, Write};

impl Standing {
    // Its word: always there, where to print it may fail.
    pub fn word(&self) -> &'static str
        ensures { result.now ≡ standing_text self.now }
    {
        match self {
            Standing::Kept => "kept",
            Standing::Dropped => "dropped",
            Standing::Absent => "absent",
        }
    }
}

impl Display for Standing {
    ghost output = { λ s. Some (standing_text s) };

    fn fmt<F: Write>(&self, f: &mut Formatter<F>) -> fmt::Result {
        f.write_str(self.word())
    }
}

// Its slot and its link.
impl Display for Seat {
    ghost output = { λ s. Some (place_text s) };

    fn fmt<F: Write>(&self, f: &mut Formatter<F>) -> fmt::Result {
        let Seat { slot, link } = *self;
        write!(f, "{slot} {link}")
    }
}
