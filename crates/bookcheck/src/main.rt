// Reads a book and perhaps a goal from the input, and prints an account of them or the refusal.
#![tactic(auto)]

ghost use Rattle.std.specs.Prelude.{◌≤◌, length, IfOk};

use account::reading::account;
use std::io;
use std::io::{Read, Write};

// A book of 8,192 bytes, a goal of 1,024, and a byte more.
const MOST_READ: usize = 9217;

// Reads the input up to the buffer's end, and says how many bytes came. By hand: each read asks for all that is left, so that of an
// input that keeps the bounds of messages none is cut, and takes no memory.
fn fill(input: &mut impl Read, buffer: &mut [u8]) -> io::Result<usize>
    ensures { IfOk result (λ n. n ≤ length buffer.old) }
{
    let mut n = 0usize;
    while n < buffer.len() {
        let got = input.read(&mut buffer[n..])?;
        if got == 0 {
            break;
        }
        n += got;
    }
    Ok(n)
}

fn main(rt: HostRuntime) -> io::Result<()> {
    let mut buffer = [0u8; MOST_READ];
    let mut input = rt.stdin();
    let n = fill(&mut input, &mut buffer)?;
    let mut output = rt.stdout();
    match account(rt.alloc(), &buffer[0..n]) {
        Ok(text) => output.write_all(&text),
        Err(_) => output.write_all(b"refused 30\n"),
    }
}
