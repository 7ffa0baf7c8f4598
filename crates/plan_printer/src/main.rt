// Reads a job sheet from standard input and prints its plan, or the line `refused N at B`.
#![tactic(auto)]

ghost use Rattle.std.specs.Prelude.{IfOk};
ghost use Rattle.host.specs.Texts.{SheetText as TextFor};

use anyhow::ensure;
use host::sheet_text;
use intake::{read_front, widest_front};
use std::alloc::Global;
use std::io::Write;

// The text of a sheet, all of it and nothing else, and whether it is the line of a refusal.
// A flag beside the text: either way there is a text, and the flag says which.
fn printed(heap: Global, sheet: &[u8]) -> anyhow::Result<(Vec<u8>, bool)>
    ensures { IfOk result (λ p. TextFor sheet.now p.1 p.0.items) }
{
    let mut text = vec![in heap; 0u8; 5120]?;
    let told = sheet_text(sheet, text.as_mut_slice())?;
    text.truncate(told.length);
    Ok((text, told.refused))
}

// The error ends the program with status 1.
fn main(rt: HostRuntime) -> anyhow::Result<()> {
    let mut buffer = vec![in rt.alloc(); 0u8; widest_front()]?;
    let len = read_front(&mut rt.stdin(), buffer.as_mut_slice())?;
    let (text, refused) = printed(rt.alloc(), &buffer[..len])?;
    rt.stdout().write_all(text.as_slice())?;
    ensure!(!refused, "refused");
    Ok(())
}
