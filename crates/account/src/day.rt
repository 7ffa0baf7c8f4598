// A day of planning: the commands of a script in turn, each run of calls replayed at once.
ghost use Rattle.std.specs.Prelude.{◌≡◌, IfOk};
ghost use Rattle.account.specs.Texts.{run_text};

use crate::asking::question_text;
use crate::output::{end_at, put, say_refused};
use crate::reading::{calls_ahead, command};
use crate::tally::{TalliedWeight, Tallying};
use crate::terms::{Command, Question};
use crate::text::{answer_text, answered, listed};
use crate::words::{next_line, past_lines};
use calendars::calendar::Calendar;
use calls::terms::{Answer, Call};
use plan::Plan;
use std::alloc::{AllocError, Global};

// Answers a question about the plan.
fn ask<W: TalliedWeight>(
    rt: &HostRuntime,
    plan: &Plan,
    store: &[W],
    line: &[u8],
    question: Question,
) -> anyhow::Result<()> {
    let answer = question_text(rt.alloc(), plan, store, question)?;
    // Only print is answered by lines of its own.
    let text = match question {
        Question::Print => listed(rt.alloc(), line, answer.as_str())?,
        _ => answered(rt.alloc(), line, answer.as_str())?,
    };
    put(rt, text.as_slice())
}

// The calls of a run, whose lines begin where the text does, each with its answer.
fn run_text(heap: Global, text: &[u8], answers: &[Answer]) -> Result<Vec<u8>, AllocError>
    ensures { IfOk result (λ v. v.items ≡ run_text text.now answers.now) }
{
    let mut all = Vec::new(heap);
    let mut rest = text;
    // The lines are cut while the answers are gone over, as in calls_ahead.
    for answer in answers {
        let (line, after) = next_line(rest);
        let words = answer_text(heap, answer)?;
        let said = answered(heap, line, words.as_str())?;
        all.extend_from_slice(said.as_slice())?;
        rest = after;
    }
    Ok(all)
}

// Makes the calls of a run, whose lines begin where the text does: the lines with their answers.
fn run_made<W: TalliedWeight, C: Calendar>(
    heap: Global,
    plan: &mut Plan,
    calendar: &C,
    store: &mut [W],
    calls: &[Call<W>],
    text: &[u8],
) -> Result<Vec<u8>, AllocError> {
    let unanswered: Answer = Ok((false, None));
    let mut answers = vec![in heap; unanswered; calls.len()]?;
    let _ = W::Tallies::replayed(plan, calendar, store, calls, answers.as_mut_slice());
    run_text(heap, text, answers.as_slice())
}

// Makes the calls of a run and prints them with their answers.
fn make_run<W: TalliedWeight, C: Calendar>(
    rt: &HostRuntime,
    plan: &mut Plan,
    calendar: &C,
    store: &mut Vec<W>,
    calls: &Vec<Call<W>>,
    text: &[u8],
) -> anyhow::Result<()> {
    let said = run_made(
        rt.alloc(),
        plan,
        calendar,
        store.as_mut_slice(),
        calls.as_slice(),
        text,
    )?;
    put(rt, said.as_slice())
}

// The day of a script whose first line has that number.
pub(crate) fn day<W: TalliedWeight, C: Calendar>(
    rt: &HostRuntime,
    calendar: &C,
    script: &[u8],
    first: u64,
) -> anyhow::Result<()> {
    let mut store = vec![in rt.alloc(); W::default(); 256]?;
    let mut plan = Plan::open();
    let mut rest = script;
    let mut number = first;
    // No iterator of lines: a turn takes a run's lines, and then one more.
    while !rest.is_empty() {
        let calls = calls_ahead::<W>(rt.alloc(), rest)?;
        make_run(rt, &mut plan, calendar, &mut store, &calls, rest)?;
        number = number.saturating_add(calls.len() as u64);
        let behind = past_lines(rest, calls.len());
        if behind.is_empty() {
            return Ok(());
        }
        let (line, after) = next_line(behind);
        match command::<W>(line) {
            Some(Command::Ask(question)) => ask(rt, &plan, store.as_slice(), line, question)?,
            Some(Command::NoWeight(fault)) => say_refused(rt, line, fault.number())?,
            _ => return end_at(rt, number),
        }
        number = number.saturating_add(1);
        rest = after;
    }
    Ok(())
}
