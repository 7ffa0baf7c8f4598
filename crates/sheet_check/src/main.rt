// Reads a job sheet from standard input and prints what it holds, or the line `refused N at B`.
#![tactic(auto)]

mod account;
mod printed;
mod rank;

use account::{account, refusal};
use anyhow::anyhow;
use intake::{read_front, widest_front};
use kinds::classed::Classed;
use kinds::points::Points;
use kinds::share::Share;
use printed::PrintedWeight;
use sheets::fault::LoadFault;
use sheets::kind::{Kind, kind_of};
use sheets::reader::read;

// Prints the refusal's line; the error ends the program with status 1.
fn refuse(rt: &HostRuntime, fault: LoadFault) -> anyhow::Result<()> {
    let line = refusal(rt.alloc(), fault)?;
    rt.print(line.as_str())?;
    Err(anyhow!("refused"))
}

// Prints the account of a sheet of the kind W, or refuses it.
fn report<W: PrintedWeight>(rt: &HostRuntime, bytes: &[u8]) -> anyhow::Result<()> {
    match read::<W>(bytes) {
        Ok(sheet) => {
            let text = account::<W>(rt.alloc(), &sheet)?;
            rt.print(text.as_str())?;
            Ok(())
        }
        Err(fault) => refuse(rt, fault),
    }
}

fn main(rt: HostRuntime) -> anyhow::Result<()> {
    let mut buffer = vec![in rt.alloc(); 0u8; widest_front()]?;
    let len = read_front(&mut rt.stdin(), buffer.as_mut_slice())?;
    let bytes = &buffer[0..len];
    // One line for each kind: a trait of visitors would be longer.
    match kind_of(bytes) {
        Ok(Kind::Points) => report::<Points>(&rt, bytes),
        Ok(Kind::Classed) => report::<Classed>(&rt, bytes),
        Ok(Kind::Share) => report::<Share>(&rt, bytes),
        Err(fault) => refuse(&rt, fault),
    }
}
