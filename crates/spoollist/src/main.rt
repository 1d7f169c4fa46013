// Lists the records of a spool: from standard input to standard output.
#![tactic(auto)]

ghost use Rattle.std.specs.Prelude.{◌≤◌, length, IfOk};

use spool_listing::{Listing, refusal_line};
use std::io;
use std::io::{BufWriter, Read, Write};

// One byte more than the longest spool has: with that many it is refused, whatever follows.
const MOST: usize = 65_501;

// Fills the buffer as far as the input goes, and answers how many bytes came.
// Kept: an array and a loop. A `Vec` and `read_to_end` need memory that may not be there.
fn fill(rt: &HostRuntime, buffer: &mut [u8]) -> io::Result<usize>
    ensures { IfOk result (λ n. n ≤ length buffer.old) }
{
    let mut input = rt.stdin();
    let mut filled = 0;
    while filled < buffer.len() {
        let n = input.read(&mut buffer[filled..])?;
        if n == 0 {
            break;
        }
        filled += n;
    }
    Ok(filled)
}

// The lines of all records and the last line, or the refusal alone.
fn write_listing(output: &mut impl Write, bytes: &[u8]) -> io::Result<()> {
    match Listing::new(bytes) {
        Ok(listing) => {
            for line in (0..).map_while(|number| listing.line(number)) {
                output.write_all(line.text())?;
            }
            output.write_all(listing.summary().text())
        }
        Err(fault) => output.write_all(refusal_line(&fault).text()),
    }
}

fn list(rt: &HostRuntime) -> io::Result<()> {
    let mut buffer = [0u8; MOST];
    let filled = fill(rt, &mut buffer)?;
    let mut output = BufWriter::new(rt.alloc(), rt.stdout())?;
    write_listing(&mut output, &buffer[0..filled])?;
    output.flush()
}

fn main(rt: HostRuntime) -> io::Result<()> {
    list(&rt)
}
