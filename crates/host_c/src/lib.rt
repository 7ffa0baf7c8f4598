// The planner's front door for a host written in C: the one function that a C program calls.
#![tactic(auto)]

ghost use Rattle.std.specs.Prelude.{ℕ, Bool, List};
ghost use Rattle.host.specs.Texts.{SheetText, SheetTextOnce, Answered};

// The length of the sheet's text, or −15 and an untouched buffer if it does not fit. A C program's slot_planner.h says more.
#[unsafe(no_mangle)]
pub extern "C" fn plan_sheet(sheet: &[u8], out: &mut [u8]) -> i64
    ensures cases { (refused : Bool) × ((text : List ℕ) × SheetText sheet.now refused text × Answered text out.old out.new result) }
    ensures alone { SheetTextOnce }
{
    host::plan_sheet(sheet, out)
}
