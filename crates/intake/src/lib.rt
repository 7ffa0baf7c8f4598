// What the programs read from standard input.
#![tactic(auto)]

ghost use Rattle.std.specs.Prelude.{◌≡◌, ◌≤◌, length, IfOk};

use kinds::classed::Classed;
use kinds::points::Points;
use kinds::share::Share;
use sheets::front::deciding_front;
use std::io;
use std::io::Read;

// As much of a sheet as decides its reading, whichever of the three kinds it is of: one line each, since types cannot be gone over.
pub fn widest_front() -> usize
    ensures { result ≡ 4372 }
{
    deciding_front::<Points>()
        .max(deciding_front::<Classed>())
        .max(deciding_front::<Share>())
}

// The input's front, as far as the buffer reaches: how many bytes there were.
pub fn read_front(input: &mut impl Read, buffer: &mut [u8]) -> io::Result<usize>
    ensures { IfOk result (λ len. len ≤ length buffer.old) }
{
    let mut len = 0;
    // A loop of reads into a buffer of fixed size: an endless input takes no more memory than its front.
    while len < buffer.len() {
        let got = input.read(&mut buffer[len..])?;
        if got == 0 {
            break;
        }
        len += got;
    }
    Ok(len)
}
