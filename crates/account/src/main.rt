// Performs a day of planning from a script on standard input, and prints an account of it.
#![tactic(auto)]

mod asking;
mod day;
mod numbers;
mod output;
mod reading;
mod settings;
mod stages;
mod tally;
mod terms;
mod text;
mod words;
mod written;

use anyhow::ensure;
use intake::read_front;
use kinds::classed::Classed;
use kinds::points::Points;
use kinds::share::Share;
use output::{end_at, say};
use settings::kind;
use sheets::kind::Kind;
use stages::from_calendar;
use tally::TalliedWeight;
use words::next_line;

// The longest script that is performed: 1 MiB.
const LONGEST: usize = 1048576;

// The account of a script, from its first line on. A script with no line has an empty account.
fn account(rt: &HostRuntime, script: &[u8]) -> anyhow::Result<()> {
    if script.is_empty() {
        return Ok(());
    }
    let (line, rest) = next_line(script);
    let Some(kind) = kind(line) else {
        return end_at(rt, 1);
    };
    say(rt, line, "accepted")?;
    // One line for each kind: a trait of visitors would be longer.
    match kind {
        Kind::Points => from_calendar::<Points>(rt, rest),
        Kind::Classed => from_calendar::<Classed>(rt, rest),
        Kind::Share => from_calendar::<Share>(rt, rest),
    }
}

fn main(rt: HostRuntime) -> anyhow::Result<()> {
    let mut buffer = vec![in rt.alloc(); 0u8; LONGEST + 1]?;
    let len = read_front(&mut rt.stdin(), buffer.as_mut_slice())?;
    ensure!(len <= LONGEST, "the script is too long");
    account(&rt, &buffer[0..len])
}
