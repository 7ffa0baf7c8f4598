// The text of each answer. Functions and no Display: the words are this program's, the values those of other crates. A refusal is said by its
// number, since the faults of calendars, weights, calls and questions are said alike; a stretch is a pair, as the plan answers it.
ghost use Rattle.std.specs.Prelude.{◌≡◌, ◌++◌, ℕ, List, Some, IfOk, string_bytes};
ghost use Rattle.account.specs.Texts.{refused_text, kept_text, answer_text, seat_text, stretch_text, kept_line, dropped_line, row_line, counts_text, totals_text, wrong_line, answered_line, listed_lines};

use calls::terms::{Answer, StretchFault};
use jobs::terms::{Row, Seat};
use std::alloc::{AllocError, Global};
use std::fmt::Display;

// A refusal.
pub(crate) fn refused_text(heap: Global, number: u8) -> Result<String, AllocError>
    ensures { IfOk result (λ t. string_bytes t ≡ refused_text number) }
{
    format!(in heap; "refused {number}")
}

fn kept_text(kept: bool) -> &'static str
    ensures { result.now ≡ kept_text kept }
{
    if kept { "yes" } else { "no" }
}

// What a call answers.
pub(crate) fn answer_text(heap: Global, answer: &Answer) -> Result<String, AllocError>
    ensures { IfOk result (λ t. string_bytes t ≡ answer_text answer.now) }
{
    match answer {
        Ok((kept, other)) => {
            let kept = kept_text(*kept);
            match other {
                Some(number) => format!(in heap; "{kept} {number}"),
                None => format!(in heap; "{kept} none"),
            }
        }
        Err(fault) => refused_text(heap, fault.number()),
    }
}

// A slot and a link, or none.
pub(crate) fn seat_text(heap: Global, seat: Option<Seat>) -> Result<String, AllocError>
    ensures { IfOk result (λ t. string_bytes t ≡ seat_text seat) }
{
    match seat {
        Some(seat) => format!(in heap; "{seat}"),
        None => String::from_str(heap, "none"),
    }
}

// A stretch: its first slot and the slot after its last.
pub(crate) fn stretch_text(
    heap: Global,
    stretch: Result<(u16, u16), StretchFault>,
) -> Result<String, AllocError>
    ensures { IfOk result (λ t. string_bytes t ≡ stretch_text stretch) }
{
    match stretch {
        Ok((first, past)) => format!(in heap; "{first} {past}"),
        Err(fault) => refused_text(heap, fault.number()),
    }
}

fn kept_line(heap: Global, number: u16, seat: Seat) -> Result<String, AllocError>
    ensures { IfOk result (λ t. string_bytes t ≡ kept_line number seat) }
{
    format!(in heap; "{number} {seat}\n")
}

fn dropped_line(
    heap: Global,
    number: u16,
    stretch: Result<(u16, u16), StretchFault>,
) -> Result<String, AllocError>
    ensures { IfOk result (λ t. string_bytes t ≡ dropped_line number stretch) }
{
    let slots = stretch_text(heap, stretch)?;
    format!(in heap; "{number} - {slots}\n")
}

// A line of the printed plan: a kept row with its seat, a dropped one with its stretch.
// Not the core's print: that fills a lent buffer, and here each line is a String.
pub(crate) fn row_line(
    heap: Global,
    row: &Row,
    stretch: Result<(u16, u16), StretchFault>,
) -> Result<String, AllocError>
    ensures { IfOk result (λ t. string_bytes t ≡ row_line row.now stretch) }
{
    match row.seat {
        Some(seat) => kept_line(heap, row.number, seat),
        None => dropped_line(heap, row.number, stretch),
    }
}

// How many jobs are kept and how many dropped.
pub(crate) fn counts_text(heap: Global, kept: usize, dropped: usize) -> Result<String, AllocError>
    ensures { IfOk result (λ t. string_bytes t ≡ counts_text kept dropped) }
{
    format!(in heap; "kept {kept} dropped {dropped}")
}

// The same, and both totals.
pub(crate) fn totals_text<T: Display>(
    heap: Global,
    kept: usize,
    dropped: usize,
    kept_total: &T,
    dropped_total: &T,
) -> Result<String, AllocError>
    ensures { (k d : List ℕ) → T.output kept_total.now ≡ Some k → T.output dropped_total.now ≡ Some d → IfOk result (λ t. string_bytes t ≡ totals_text kept dropped k d) }
{
    format!(in heap; "kept {kept} dropped {dropped} total {kept_total} {dropped_total}")
}

// The last line of an account whose script has a line that is no command.
pub(crate) fn wrong_line(heap: Global, number: u64) -> Result<String, AllocError>
    ensures { IfOk result (λ t. string_bytes t ≡ wrong_line number) }
{
    format!(in heap; "line {number}: not a command\n")
}

// A command as it stands, and the text behind it.
fn joined(heap: Global, line: &[u8], text: &str) -> Result<Vec<u8>, AllocError>
    ensures { IfOk result (λ v. v.items ≡ line.now ++ text.now) }
{
    let mut all = Vec::from_slice(heap, line)?;
    all.extend_from_slice(text.as_bytes())?;
    Ok(all)
}

// A command as it stands, a colon, a space, its answer and the end of the line.
pub(crate) fn answered(heap: Global, line: &[u8], answer: &str) -> Result<Vec<u8>, AllocError>
    ensures { IfOk result (λ v. v.items ≡ answered_line line.now answer.now) }
{
    let text = format!(in heap; ": {answer}\n")?;
    joined(heap, line, text.as_str())
}

// A command as it stands, a colon, and the lines that answer it.
pub(crate) fn listed(heap: Global, line: &[u8], lines: &str) -> Result<Vec<u8>, AllocError>
    ensures { IfOk result (λ v. v.items ≡ listed_lines line.now lines.now) }
{
    let text = format!(in heap; ":\n{lines}")?;
    joined(heap, line, text.as_str())
}
