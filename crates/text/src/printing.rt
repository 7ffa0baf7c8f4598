// The printed plan and the refusal line. Each is made aside, and then handed over whole or not at all.
ghost use Rattle.std.specs.Prelude.{ℕ, ◌≡◌, ◌+◌, ◌*◌, ◌<◌, ◌≤◌, List, [], ◌++◌, length, IfOk};
ghost use Rattle.arrayvec.specs.ArrayString.{array_string_len};
ghost use Rattle.plan.specs.Plans.{rows_in};
ghost use Rattle.text.specs.Printing.{LineOf, Printed, PrintedOnce, refusal_line};
ghost use Rattle.text.specs.Putting.{Delivered};

use crate::fault::BufferFault;
use crate::putting::{deliver, push_line};
use arrayvec::ArrayString;
use itoa::Buffer;
use jobs::terms::Row;
use plan::Plan;
use questions::stretch::stretch_at;

// Appends the line of the row at this rank: at most 20 bytes.
fn push_row<const CAP: usize>(text: &mut ArrayString<CAP>, rows: &[Row], rank: usize)
    requires { (rank < length rows.now) × (array_string_len text.old + 20 ≤ CAP) }
    ensures line { (line : List ℕ) × LineOf rows.now rank line × (text.new.bytes ≡ text.old.bytes ++ line) }
    ensures short { array_string_len text.new ≤ array_string_len text.old + 20 }
{
    let row = rows[rank];
    match row.seat {
        Some(seat) => push_line(text, row.number, " ", seat.slot, u16::from(seat.link)),
        None => {
            let Some((from, to)) = stretch_at(rows, rank) else {
                unreachable!();
            };
            push_line(text, row.number, " - ", from, to);
        }
    }
}

// Appends the line of each row to an empty text, in rank order. The loop goes over ranks, since a dropped row's line asks all the rows.
#[tactic(auto, using(crate::proofs::Lines::lines_none, crate::proofs::Lines::lines_more))]
fn push_rows<const CAP: usize>(text: &mut ArrayString<CAP>, rows: &[Row])
    requires { (text.old.bytes ≡ []) × (20 * length rows.now ≤ CAP) }
    ensures { Printed rows.now text.new.bytes }
{
    for rank in 0..rows.len() {
        push_row(text, rows, rank);
    }
}

// Prints the plan at the buffer's front, a line a job in rank order, and answers the text's length; the rest of the buffer stays as it
// was. Refused for a buffer that is shorter than the text (15), and then the buffer stays as it was. The rows of a plan have one text.
// A length and no slice: a host in C is told a length.
pub fn print(plan: &Plan, out: &mut [u8]) -> Result<usize, BufferFault>
    ensures cases { (text : List ℕ) × Printed (rows_in plan.now) text × Delivered text out.old out.new result }
    ensures alone { PrintedOnce }
    ensures short { IfOk result (λ n. n ≤ 5120) }
{
    // 256 lines of at most 20 bytes.
    let mut text = ArrayString::<5120>::new();
    push_rows(&mut text, plan.rows());
    deliver(text.as_str(), out)
}

// Prints the line of a refusal at the buffer's front and answers the line's length; the rest of the buffer stays as it was. It is handed
// number and byte, so that a text need not know whose fault it is. Refused for a buffer that is shorter than the line (15), and then the
// buffer stays as it was.
pub fn print_refusal(number: u8, byte: usize, out: &mut [u8]) -> Result<usize, BufferFault>
    ensures cases { Delivered (refusal_line number byte) out.old out.new result }
    ensures short { IfOk result (λ n. n ≤ 36) }
{
    // At most 3 digits of the number and 20 of the byte.
    let mut line = ArrayString::<36>::new();
    let mut digits = Buffer::new();
    line.push_str("refused ");
    line.push_str(digits.format(number));
    line.push_str(" at ");
    line.push_str(digits.format(byte));
    line.push_str("\n");
    deliver(line.as_str(), out)
}
