// The listing program: reads a part file from standard input (LIST-1)
// and writes its listing. What it writes is proved in `list_part`.
#![tactic(auto)]

ghost use Rattle.std.specs.Prelude.{length};
ghost use Rattle.listing.specs.Inputs.{Within};

use std::io;
use std::io::Read;

// Reads until the buffer is full or the input ends, and tells how many bytes came.
fn read_input<R: Read>(reader: &mut R, buffer: &mut [u8]) -> io::Result<usize>
    ensures outcome { Within 0 (length buffer.new) result }
{
    let mut done: usize = 0;
    // As many turns as reads take: each tells how far it came.
    while done < buffer.len() {
        let n = reader.read(&mut buffer[done..])?;
        if n == 0 {
            return Ok(done);
        }
        done += n;
    }
    Ok(done)
}

// Writes the listing of an input.
fn write_listing<P: Print>(rt: &P, input: &[u8]) -> io::Result<()> {
    let mut output = [0u8; 23580];
    if let Some(n) = list_part::list(input, &mut output) {
        rt.write_all(&output[..n])?;
    }
    Ok(())
}

// One byte more than the program takes (LIMIT-11) tells it that there are too many.
fn main(rt: HostRuntime) -> io::Result<()> {
    let mut input = [0u8; 8193];
    match read_input(&mut rt.stdin(), &mut input) {
        Ok(n) => write_listing(&rt, &input[..n]),
        Err(_) => eprintln!(rt; "standard input: it cannot be read"),
    }
}
