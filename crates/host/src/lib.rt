// The planner's front door for bytes: a sheet in, its printed plan or the line of its refusal out.
#![tactic(auto)]

ghost use Rattle.std.specs.Prelude.{◌≡◌, ℕ, ◌≤◌, Bool, List, IfOk};
ghost use Rattle.host.specs.Texts.{TextAs, SheetText as TextFor, SheetTextOnce, Handed, Answered};

use crate::terms::SheetText;
use crate::texts::{refusal_text, text_with, texts_are_alone};
use kinds::classed::Classed;
use kinds::points::Points;
use kinds::share::Share;
use sheets::kind::{Kind, kind_of};
use text::BufferFault;

pub mod terms;
mod texts;

// The text of a sheet of this kind.
fn text_as(kind: Kind, sheet: &[u8], out: &mut [u8]) -> Result<SheetText, BufferFault>
    ensures cases { (refused : Bool) × ((text : List ℕ) × TextAs kind sheet.now refused text × Handed refused text out.old out.new result) }
    ensures short { IfOk result (λ s. s.length ≤ 5120) }
{
    // One line for each kind: a trait of visitors would be longer.
    match kind {
        Kind::Points => text_with::<Points>(sheet, out),
        Kind::Classed => text_with::<Classed>(sheet, out),
        Kind::Share => text_with::<Share>(sheet, out),
    }
}

// Plans a sheet of any of the three kinds, by its kind record, under its calendar, which ends where its masks do, and puts the text of
// the plan at the buffer's front; for a sheet that is refused the line `refused N at B`. The rest of the buffer stays as it was. Refused
// for a buffer that is shorter than the text (15), and then the buffer stays as it was. No sheet has two texts.
pub fn sheet_text(sheet: &[u8], out: &mut [u8]) -> Result<SheetText, BufferFault>
    ensures cases { (refused : Bool) × ((text : List ℕ) × TextFor sheet.now refused text × Handed refused text out.old out.new result) }
    ensures short { IfOk result (λ s. s.length ≤ 5120) }
    ensures alone { SheetTextOnce }
{
    // One line for each kind: types cannot be gone over.
    texts_are_alone::<Points>();
    texts_are_alone::<Classed>();
    texts_are_alone::<Share>();
    match kind_of(sheet) {
        Ok(kind) => text_as(kind, sheet, out),
        Err(fault) => refusal_text(fault, out),
    }
}

// The same for a host written in C: the length of the text, or −15 and an untouched buffer if it does not fit.
// A number below 0, since C has no Result.
pub fn plan_sheet(sheet: &[u8], out: &mut [u8]) -> i64
    ensures cases { (refused : Bool) × ((text : List ℕ) × TextFor sheet.now refused text × Answered text out.old out.new result) }
    ensures alone { SheetTextOnce }
{
    match sheet_text(sheet, out) {
        Ok(text) => text.length as i64,
        Err(_) => -15,
    }
}
