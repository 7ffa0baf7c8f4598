// A line of a script read as a command. None where it is none.
ghost use Rattle.std.specs.Prelude.{◌≡◌, map, IfOk};
ghost use Rattle.std.specs.Option.{option_map};
ghost use Rattle.account.specs.Commands.{command_figures, job_in, offer_in, reweigh_in, call_in, question_in, alone, command_in, call_figures, calls_ahead};
ghost use Rattle.account.specs.Words.{lines_of};

use crate::numbers::number;
use crate::terms::{Command, Question};
use crate::words::{cut, is_word, next_line};
use crate::written::WrittenWeight;
use calls::terms::Call;
use jobs::terms::Job;
use std::alloc::{AllocError, Global};

// The offer of a job from its four parts.
fn offered<W: WrittenWeight>(
    name: &[u8],
    ready: &[u8],
    deadline: &[u8],
    weight: &[u8],
) -> Option<Command<W>>
    ensures { option_map (command_figures W.WrittenWeight.figures) result ≡ job_in W.WrittenWeight.figures_in name.now ready.now deadline.now weight.now }
{
    let job = number(name)?;
    let first = number(ready)?;
    let past = number(deadline)?;
    match W::parse(weight)? {
        Ok(weight) => Some(Command::Make(Call::Offer(Job {
            number: job,
            ready: first,
            deadline: past,
            weight,
        }))),
        Err(fault) => Some(Command::NoWeight(fault)),
    }
}

// What follows `offer`: number, ready slot, deadline and weight.
fn offer<W: WrittenWeight>(text: &[u8]) -> Option<Command<W>>
    ensures { option_map (command_figures W.WrittenWeight.figures) result ≡ offer_in W.WrittenWeight.figures_in text.now }
{
    let (name, rest) = cut(text, b' ')?;
    let (ready, rest) = cut(rest, b' ')?;
    let (deadline, weight) = cut(rest, b' ')?;
    offered::<W>(name, ready, deadline, weight)
}

// What follows `reweigh`: number and weight. It ends as `offered` does but for the call: one function would take that as a closure.
fn reweigh<W: WrittenWeight>(text: &[u8]) -> Option<Command<W>>
    ensures { option_map (command_figures W.WrittenWeight.figures) result ≡ reweigh_in W.WrittenWeight.figures_in text.now }
{
    let (name, weight) = cut(text, b' ')?;
    let job = number(name)?;
    match W::parse(weight)? {
        Ok(weight) => Some(Command::Make(Call::Reweigh(job, weight))),
        Err(fault) => Some(Command::NoWeight(fault)),
    }
}

// A call from its name and what follows it.
// By `if`: a `match` on b"offer" and the others was tried, and the proof of its last arm did not close.
fn call<W: WrittenWeight>(name: &[u8], text: &[u8]) -> Option<Command<W>>
    ensures { option_map (command_figures W.WrittenWeight.figures) result ≡ call_in W.WrittenWeight.figures_in name.now text.now }
{
    if is_word(name, "offer") {
        offer::<W>(text)
    } else if is_word(name, "withdraw") {
        let job = number(text)?;
        Some(Command::Make(Call::Withdraw(job)))
    } else if is_word(name, "reweigh") {
        reweigh::<W>(text)
    } else {
        None
    }
}

// A question from its name and what follows it.
fn question(name: &[u8], text: &[u8]) -> Option<Question>
    ensures { result ≡ question_in name.now text.now }
{
    let job = number(text)?;
    match name {
        b"standing" => Some(Question::Standing(job)),
        b"seat" => Some(Question::Seat(job)),
        b"stretch" => Some(Question::Stretch(job)),
        _ => None,
    }
}

// A question that is one word.
fn lone_question(line: &[u8]) -> Option<Question>
    ensures { result ≡ alone line.now }
{
    match line {
        b"tally" => Some(Question::Tally),
        b"print" => Some(Question::Print),
        _ => None,
    }
}

// The command of a line.
pub(crate) fn command<W: WrittenWeight>(line: &[u8]) -> Option<Command<W>>
    ensures { option_map (command_figures W.WrittenWeight.figures) result ≡ command_in W.WrittenWeight.figures_in line.now }
{
    match cut(line, b' ') {
        Some((name, text)) => {
            call::<W>(name, text).or_else(|| Some(Command::Ask(question(name, text)?)))
        }
        None => Some(Command::Ask(lone_question(line)?)),
    }
}

// The calls that begin the text, up to the first line that is none.
pub(crate) fn calls_ahead<W: WrittenWeight>(
    heap: Global,
    text: &[u8],
) -> Result<Vec<Call<W>>, AllocError>
    ensures { IfOk result (λ v. map (call_figures W.WrittenWeight.figures) v.items ≡ calls_ahead W.WrittenWeight.figures_in (lines_of text.now)) }
{
    let mut calls = Vec::new(heap);
    let mut rest = text;
    // No iterator of lines: the other loops over them need the text that is left.
    while !rest.is_empty() {
        let (line, after) = next_line(rest);
        let Some(Command::Make(call)) = command::<W>(line) else {
            return Ok(calls);
        };
        calls.push(call)?;
        rest = after;
    }
    Ok(calls)
}
