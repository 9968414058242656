// The pair program: reads a text from standard input and writes the least and the greatest separation of every two events, or the refusal. Every byte it
// writes comes from `text::write_pairs`, whose promise says which. A read or a write that fails ends it with an error and the status 1.
#![tactic(auto)]

ghost use Rattle.std.specs.Io.{ReadsAtMost};

use std::io::{self, Read, Write};

// Reads until the list is full or the input ends, and gives the number of bytes. A read that does not end the input gives at least one.
fn fill(input: &mut impl Read, buffer: &mut [u8]) -> io::Result<usize>
    ensures { ReadsAtMost result buffer.new }
{
    let mut done = 0;
    for _ in 0..buffer.len() {
        let count = input.read(&mut buffer[done..])?;
        if count == 0 {
            break;
        }
        done += count;
    }
    Ok(done)
}

// Reads what is left of the input, up to 4 GB, so that whoever writes it can end.
fn skip_rest(input: &mut impl Read) -> io::Result<()> {
    // Kept: a list of fixed size, on the stack: the project has no heap.
    let mut chunk = [0u8; 65536];
    for _ in 0..65536 {
        if fill(input, &mut chunk)? < 65536 {
            break;
        }
    }
    Ok(())
}

// One byte more than a text may have is enough to refuse it. The list for the output is as long as `text::write_pairs` asks.
fn main(rt: HostRuntime) -> io::Result<()> {
    let mut reader = rt.stdin();
    // Kept: two lists of fixed size, on the stack: the project has no heap.
    let mut input = [0u8; 32769];
    let length = fill(&mut reader, &mut input)?;
    if length > 32768 {
        skip_rest(&mut reader)?;
    }
    let mut out = [0u8; 131072];
    let bytes = text::write_pairs(&input[..length], &mut out).unwrap_or(0);
    rt.stdout().write_all(&out[..bytes])
}
