// Runs every script of pushes and pops on rings of 0 to 4 slots, to be compared with what the reference computes.
// Kept: how an answer, a script and a case are written is much the same in `carriage_cases`. A library for these few lines would
// be no plainer.
#![tactic(auto)]

ghost use Rattle.std.specs.Prelude.{◌<◌, length};

use cell::Fault;
use ring::Ring;
use std::fmt::Display;
use std::io::{BufWriter, Write};
use std::{fmt, io, iter};

// An entry of another kind than a number.
// Kept: no Option, since an octet that is not good is told too.
#[derive(Clone, Copy)]
struct Item {
    octet: u8,
    good: bool,
}

impl Item {
    fn new(octet: u8, good: bool) -> Item {
        Item { octet, good }
    }
}

impl fmt::Display for Item {
    fn fmt<W: fmt::Write>(&self, f: &mut fmt::Formatter<W>) -> fmt::Result {
        let sign = if self.good { '+' } else { '-' };
        write!(f, "{}{sign}", self.octet)
    }
}

// A call, and what it answered or the refusal.
fn write_answer<C: Display + Drop, T: Display + Drop>(
    out: &mut impl Write,
    call: C,
    answer: Result<T, Fault>,
) -> io::Result<()> {
    match answer {
        Ok(value) => write!(out, " {call} {value}"),
        Err(fault) => write!(out, " {call} refused {fault}"),
    }
}

// What the ring tells of itself between the calls of a script.
fn write_state<T: Copy + Display>(out: &mut impl Write, ring: &Ring<'_, T>) -> io::Result<()> {
    write_answer(out, "first", ring.first())?;
    write!(out, " len {} free {};", ring.len(), ring.free())
}

// Runs one script on a ring: as many calls as there are entries, each a push of its entry or a pop.
// The number of the script tells which, its lowest bit first: 1 is a push.
// Kept: a test of a bit and no list of closures, since the number is the whole case.
// Kept: the output and the entries side by side, here and below. A struct of the two would be no plainer.
fn run_script<T: Copy + Display>(
    out: &mut impl Write,
    ring: &mut Ring<'_, T>,
    entries: &[T],
    script: u8,
) -> io::Result<()> {
    write_state(out, ring)?;
    let halves = iter::successors(Some(script), |rest| Some(*rest / 2));
    for (entry, rest) in entries.iter().copied().zip(halves) {
        if rest % 2 == 1 {
            let pushed = ring.push(entry).map(|()| "ok");
            write_answer(out, format_args!("push {entry}"), pushed)?;
        } else {
            write_answer(out, "pop", ring.pop())?;
        }
        write_state(out, ring)?;
    }
    Ok(())
}

// One line: the script on a new ring, and the slots after the ring is gone.
fn run_case<T: Copy + Display>(
    out: &mut impl Write,
    slots: &mut [T],
    entries: &[T],
    script: u8,
) -> io::Result<()> {
    write!(out, "{} slots:", slots.len())?;
    run_script(out, &mut Ring::new(slots), entries, script)?;
    write!(out, " slots")?;
    for slot in slots.iter() {
        write!(out, " {slot}")?;
    }
    writeln!(out, "")
}

// Every script of as many calls as there are entries, on rings of 0 to 4 slots.
fn run_scripts<T: Copy + Display>(
    out: &mut impl Write,
    kind: &str,
    held: [T; 4],
    entries: &[T],
) -> io::Result<()>
    requires { length entries.now < 8 }
{
    for len in 0..=held.len() {
        for script in 0..(1u8 << entries.len()) {
            let mut slots = held;
            write!(out, "{kind}, ")?;
            run_case(out, &mut slots[..len], entries, script)?;
        }
    }
    Ok(())
}

fn main(rt: HostRuntime) -> io::Result<()> {
    let mut out = BufWriter::new(rt.alloc(), rt.stdout())?;
    let octets = [1u8, 2, 3, 4, 5, 6, 7];
    run_scripts(&mut out, "octets", [101, 102, 103, 104], &octets)?;
    let items = [
        Item::new(1, true),
        Item::new(2, false),
        Item::new(3, true),
        Item::new(4, true),
        Item::new(5, false),
    ];
    let held = [101, 102, 103, 104].map(|octet| Item::new(octet, false));
    run_scripts(&mut out, "items", held, &items)?;
    out.flush()
}
