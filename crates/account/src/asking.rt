// The answers to the questions about a plan, as text.
ghost use Rattle.std.specs.Prelude.{IfOk, string_bytes};
ghost use Rattle.plan.specs.Plans.{rows_in};
ghost use Rattle.account.specs.Answers.{Printed, AnswerTo};

use crate::tally::{TalliedWeight, Tallying};
use crate::terms::Question;
use crate::text::{row_line, seat_text, stretch_text};
use plan::Plan;
use std::alloc::{AllocError, Global};

// The printed plan: a line for each row.
fn plan_text(heap: Global, plan: &Plan) -> Result<String, AllocError>
    ensures { IfOk result (λ t. Printed (rows_in plan.now) (rows_in plan.now) (string_bytes t)) }
{
    let mut text = String::new(heap);
    for row in plan.rows() {
        let line = row_line(heap, row, plan.stretch(row.number))?;
        text.push_str(line.as_str())?;
    }
    Ok(text)
}

// The answer to a question; that of `print` is the printed plan.
pub(crate) fn question_text<W: TalliedWeight>(
    heap: Global,
    plan: &Plan,
    store: &[W],
    question: Question,
) -> Result<String, AllocError>
    ensures { IfOk result (λ t. AnswerTo (rows_in plan.now) question (string_bytes t)) }
{
    match question {
        Question::Standing(number) => plan.standing(number).to_string(heap),
        Question::Seat(number) => seat_text(heap, plan.seat(number)),
        Question::Stretch(number) => stretch_text(heap, plan.stretch(number)),
        Question::Tally => W::Tallies::tally_text(heap, plan, store),
        Question::Print => plan_text(heap, plan),
    }
}
