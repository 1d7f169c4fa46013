// Seals and reads every case of the header code, to be compared with what the reference computes.
#![tactic(auto)]

use header::{Mode, Reader, Reading, seal};
use std::io;

// Every CSI and count up to a little past the largest.
fn seal_all(rt: &HostRuntime) -> io::Result<()> {
    for csi in 0..4u8 {
        for count in 0..10u8 {
            match seal(csi, count) {
                Ok(header) => println!(rt; "seal {csi} {count} {header:02X}")?,
                Err(fault) => println!(rt; "seal {csi} {count} refused {fault}")?,
            }
        }
    }
    Ok(())
}

// Every octet in one mode.
fn read_all(rt: &HostRuntime, mode: Mode) -> io::Result<()> {
    for octet in 0..=255u8 {
        let mut reader = Reader::in_mode(mode);
        let Reading { csi, count, valid } = reader.read(octet);
        let after = reader.mode();
        println!(rt; "read {mode} {octet:02X} {csi} {count} {valid} {after}")?;
    }
    Ok(())
}

fn main(rt: HostRuntime) -> io::Result<()> {
    seal_all(&rt)?;
    read_all(&rt, Mode::Correction)?;
    read_all(&rt, Mode::Detection)
}
