// What the account prints, and how it ends. A refusal is handed on by its number, since the faults of four crates are said alike.
use crate::text::{answered, refused_text, wrong_line};
use anyhow::anyhow;
use std::io::Write;

// Prints the bytes.
pub(crate) fn put(rt: &HostRuntime, bytes: &[u8]) -> anyhow::Result<()> {
    rt.stdout().write_all(bytes)?;
    Ok(())
}

// Prints a command and its answer.
pub(crate) fn say(rt: &HostRuntime, line: &[u8], answer: &str) -> anyhow::Result<()> {
    let text = answered(rt.alloc(), line, answer)?;
    put(rt, text.as_slice())
}

// Prints a command and the number of its refusal.
pub(crate) fn say_refused(rt: &HostRuntime, line: &[u8], number: u8) -> anyhow::Result<()> {
    let answer = refused_text(rt.alloc(), number)?;
    say(rt, line, answer.as_str())
}

// A refused calendar ends the account; the error ends the program with status 1.
pub(crate) fn end_refused(rt: &HostRuntime, line: &[u8], number: u8) -> anyhow::Result<()> {
    say_refused(rt, line, number)?;
    Err(anyhow!("refused"))
}

// A line that is no command ends the account; the error ends the program with status 1.
pub(crate) fn end_at(rt: &HostRuntime, number: u64) -> anyhow::Result<()> {
    let text = wrong_line(rt.alloc(), number)?;
    put(rt, text.as_bytes())?;
    Err(anyhow!("not a command"))
}
