// The tags of a sheet's records.
ghost use Rattle.std.specs.Prelude.{◌≡◌};
ghost use Rattle.sheets.specs.Tags.{tag_byte, TagRead};

use crate::fault::SheetFault;

#[derive(Clone, Copy, Debug, PartialEq, Eq)]
pub enum Tag {
    Kind = 1,
    Calendar = 2,
    Job = 3,
}

impl Tag {
    // The byte that begins a record with this tag.
    pub fn byte(self) -> u8
        ensures { result ≡ tag_byte self }
    {
        self as u8
    }
}

impl TryFrom<u8> for Tag {
    type Error = SheetFault;

    ghost try_from_gives = { TagRead };

    fn try_from(byte: u8) -> Result<Tag, SheetFault> {
        match byte {
            1 => Ok(Tag::Kind),
            2 => Ok(Tag::Calendar),
            3 => Ok(Tag::Job),
            _ => Err(SheetFault::UnknownTag),
        }
    }
}
