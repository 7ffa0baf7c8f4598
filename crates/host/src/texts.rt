// The text of a sheet for one kind of weight.
ghost use Rattle.std.specs.Prelude.{ℕ, ◌*◌, ◌^◌, ◌<◌, ◌≤◌, Bool, true, false, List, IfOk};
ghost use Rattle.std.specs.Mem.{type_size};
ghost use Rattle.plan.specs.Plans.{rows_in};
ghost use Rattle.text.specs.Printing.{Printed};
ghost use Rattle.host.specs.Texts.{RefusalText, TextOf, TextOnce, Handed};

use crate::terms::SheetText;
use plan::{LoadRefusal, Plan};
use sheets::fault::LoadFault;
use text::{BufferFault, print, print_refusal};
use weights::kind::OrderedWeight;

// The line of a refusal.
pub(crate) fn refusal_text(fault: LoadFault, out: &mut [u8]) -> Result<SheetText, BufferFault>
    ensures cases { (text : List ℕ) × RefusalText fault text × Handed true text out.old out.new result }
    ensures short { IfOk result (λ s. s.length ≤ 5120) }
{
    let length = print_refusal(fault.number(), fault.byte(), out)?;
    Ok(SheetText {
        length,
        refused: true,
    })
}

// The text of a plan.
fn plan_text(plan: &Plan, out: &mut [u8]) -> Result<SheetText, BufferFault>
    ensures cases { (text : List ℕ) × Printed (rows_in plan.now) text × Handed false text out.old out.new result }
    ensures short { IfOk result (λ s. s.length ≤ 5120) }
{
    let length = print(plan, out)?;
    Ok(SheetText {
        length,
        refused: false,
    })
}

// The text of a sheet of this kind. The weight that the store begins with shows nowhere.
pub(crate) fn text_with<W: OrderedWeight + Default>(
    sheet: &[u8],
    out: &mut [u8],
) -> Result<SheetText, BufferFault>
    requires { 256 * type_size W.row < 2 ^ 63 }
    ensures cases { (refused : Bool) × ((text : List ℕ) × TextOf W.OrderedWeight.CODE W.OrderedWeight.WIDTH W.OrderedWeight.encoding W.OrderedWeight.no_lighter sheet.now refused text × Handed refused text out.old out.new result) }
    ensures short { IfOk result (λ s. s.length ≤ 5120) }
{
    let mut plan = Plan::open();
    let mut store = [W::default(); 256];
    match plan.load(&mut store, sheet, false) {
        Ok(_) => plan_text(&plan, out),
        Err(LoadRefusal::Sheet(fault)) => refusal_text(fault, out),
        Err(LoadRefusal::StoreTooShort) => unreachable!(),
    }
}

// No sheet has two texts for this kind. Computes nothing.
pub(crate) fn texts_are_alone<W: OrderedWeight>()
    ensures { TextOnce W.OrderedWeight.CODE W.OrderedWeight.WIDTH W.OrderedWeight.encoding W.OrderedWeight.no_lighter }
{}
