// The kinds that a sheet may name, by the code in its kind record.
ghost use Rattle.std.specs.Prelude.{◌≡◌, ℕ, List, [], ◌∷◌, ◌++◌, MatchResult};
ghost use Rattle.sheets.specs.Format.{kind_record, Framed, FrameFault, KindRefused};
ghost use Rattle.sheets.specs.Kinds.{kind_code, Offered, KindRead};

use crate::fault::{LoadFault, SheetFault};
use crate::record::record_value;
use crate::tag::Tag;

#[derive(Clone, Copy, Debug, PartialEq, Eq)]
pub enum Kind {
    Points = 1,
    Classed = 2,
    Share = 3,
}

impl Kind {
    // Its code in a sheet, which the weights have too: they know no sheets, and there may be other kinds.
    pub fn code(self) -> u8
        ensures { result ≡ kind_code self }
    {
        self as u8
    }
}

impl TryFrom<u8> for Kind {
    type Error = SheetFault;

    ghost try_from_gives = { KindRead };

    fn try_from(code: u8) -> Result<Kind, SheetFault> {
        match code {
            1 => Ok(Kind::Points),
            2 => Ok(Kind::Classed),
            3 => Ok(Kind::Share),
            _ => Err(SheetFault::OtherKind),
        }
    }
}

// The code in the kind record, which is the first: a number and no kind, since a reader may be asked for any.
pub(crate) fn code_of(sheet: &[u8]) -> Result<u8, SheetFault>
    ensures { MatchResult result (λ code. Framed 1 1 1 sheet.now (code ∷ [])) (λ fault. FrameFault 1 1 1 sheet.now fault) }
{
    let value = record_value(sheet, Tag::Kind, 1, 1)?;
    Ok(value[0])
}

// The kind that the sheet's first record names; refused as the reader refuses that record, a code outside 1 to 3 included.
pub fn kind_of(sheet: &[u8]) -> Result<Kind, LoadFault>
    ensures { MatchResult result (λ kind. (rest : List ℕ) × (sheet.now ≡ kind_record (kind_code kind) ++ rest)) (λ fault. KindRefused Offered sheet.now fault) }
{
    code_of(sheet)
        .and_then(Kind::try_from)
        .map_err(|fault| fault.at(0))
}
