// Lists the header octets of a recording: from standard input to standard output.
#![tactic(auto)]

use header_listing::Listing;
use std::io;
use std::io::{BufWriter, Read, Write};

// Reads the recording piece by piece, so that its length does not matter.
// Kept: an array and a loop. A `BufReader` needs memory that may not be there, and goes through three calls for each octet.
fn list(rt: &HostRuntime) -> io::Result<()> {
    let mut input = rt.stdin();
    let mut output = BufWriter::new(rt.alloc(), rt.stdout())?;
    let mut listing = Listing::new();
    let mut piece = [0u8; 4096];
    for _ in 0..u64::MAX {
        let n = input.read(&mut piece)?;
        if n == 0 {
            output.write_all(listing.summary().text())?;
            return output.flush();
        }
        for octet in &piece[0..n] {
            output.write_all(listing.next(*octet).text())?;
        }
    }
    Err(io::Error::other("the recording does not end"))
}

fn main(rt: HostRuntime) -> io::Result<()> {
    list(&rt)
}
