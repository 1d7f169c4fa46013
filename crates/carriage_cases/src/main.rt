// Runs cases of the carriages, of lines over them and of drafts, to be compared with what the reference computes.
#![tactic(auto)]

use carriage::{Carriage, Fate, Queue};
use cell::{Cell, Fault};
use foreign_link::Link;
use line::{Draft, Line, MAX_FATES, Plan};
use spool::{Mark, Record, Spool, Survey};
use std::alloc::{AllocError, Global};
use std::fmt::Display;
use std::io::{BufWriter, Write};
use std::{fmt, io, iter};

// ---- The cells of the cases, and how cells and answers are printed

// A cell that differs from that of every other number, in its header and in every octet of its payload.
fn sample(number: u8) -> Cell {
    let first = number.wrapping_mul(53);
    let mut octets = [0; 48];
    for (octet, place) in octets.iter_mut().zip(0u8..) {
        *octet = first.wrapping_add(place);
    }
    Cell { octets }.with_header(number.wrapping_mul(17))
}

// The sum of each octet times its place, from 1, modulo 2^32.
fn checksum(octets: &[u8]) -> u32 {
    octets.iter().zip(1u32..).fold(0, |sum, (octet, place)| {
        sum.wrapping_add(place.wrapping_mul(u32::from(*octet)))
    })
}

// A cell as it is printed: its header octet, and the checksum of its payload.
#[derive(Clone, Copy)]
struct Shown(Cell);

impl Display for Shown {
    fn fmt<W: fmt::Write>(&self, f: &mut fmt::Formatter<W>) -> fmt::Result {
        let header = self.0.header();
        write!(f, "{header:02X}:{}", checksum(self.0.payload()))
    }
}

// What a call answers, as it is printed: the value, or the refusal.
#[derive(Clone, Copy)]
struct Answer<T>(Result<T, Fault>);

impl<T: Display> Display for Answer<T> {
    fn fmt<W: fmt::Write>(&self, f: &mut fmt::Formatter<W>) -> fmt::Result {
        match &self.0 {
            Ok(value) => write!(f, "{value}"),
            Err(fault) => write!(f, "refused {fault}"),
        }
    }
}

// The answer of a call that answers nothing but a refusal.
fn done(answer: Result<(), Fault>) -> Answer<&'static str> {
    Answer(answer.map(|()| "ok"))
}

// ---- Where the cases are written, and the calls of any carriage with what they answer

// Where the lines go, and where the memory comes from.
#[derive(Drop)]
struct Cases<W> {
    out: W,
    heap: Global,
}

impl<W: Write> Cases<W> {
    // What a carriage tells of itself, between other calls.
    fn write_state<C: Carriage>(&mut self, carriage: &C) -> io::Result<()> {
        let look = Answer(carriage.look().map(Shown));
        write!(
            self.out,
            " look {look} room {} waiting {};",
            carriage.room(),
            carriage.waiting()
        )
    }

    // Puts the sample of this number, and answers whether it was accepted.
    fn put<C: Carriage>(&mut self, carriage: &mut C, number: u8) -> io::Result<bool> {
        let answer = carriage.put(sample(number));
        write!(self.out, " put {number} {};", done(answer))?;
        Ok(answer.is_ok())
    }

    // Drops the first cell.
    fn drop_first<C: Carriage>(&mut self, carriage: &mut C) -> io::Result<()> {
        let answer = carriage.drop_first();
        write!(self.out, " drop {};", done(answer))
    }

    // Looks at the first cell and drops it.
    fn take<C: Carriage>(&mut self, carriage: &mut C) -> io::Result<()> {
        let look = Answer(carriage.look().map(Shown));
        write!(self.out, " took {look}")?;
        self.drop_first(carriage)
    }

    // Runs a script of so many calls, each a put or a drop.
    // The number of the script tells which, its lowest bit first: 1 is a put.
    // Kept: a test of a bit and no list of closures, since the number is the whole case.
    fn run_script<C: Carriage>(
        &mut self,
        carriage: &mut C,
        calls: u8,
        script: u8,
    ) -> io::Result<()> {
        self.write_state(carriage)?;
        let halves = iter::successors(Some(script), |rest| Some(*rest / 2));
        for (number, rest) in (1..=calls).zip(halves) {
            if rest % 2 == 1 {
                self.put(carriage, number)?;
            } else {
                self.drop_first(carriage)?;
            }
            self.write_state(carriage)?;
        }
        Ok(())
    }
}

// ---- Drafts and plans for the cases

// A draft with these fates.
fn draft_of(heap: Global, numbers: &[u16]) -> io::Result<Draft> {
    let memory: Vec<Fate> = Vec::with_capacity(heap, MAX_FATES)?;
    let mut draft = Draft::new(memory)?;
    for number in numbers {
        draft
            .add(*number)
            .map_err(|_| io::Error::other("a fate of a case is refused"))?;
    }
    Ok(draft)
}

// A started plan of these fates.
fn plan_of(heap: Global, numbers: &[u16]) -> io::Result<Plan> {
    let draft = draft_of(heap, numbers)?;
    Ok(draft.start())
}

// ---- Cases of the queue

impl<W: Write> Cases<W> {
    // Every script of five calls on queues of 0 to 3 slots.
    fn run_queues(&mut self) -> io::Result<()> {
        let held = [sample(101), sample(102), sample(103)];
        for len in 0..=held.len() {
            for script in 0..32u8 {
                let mut slots = held;
                self.run_queue_case(&mut slots[..len], script)?;
            }
        }
        Ok(())
    }

    // One line: the script on a new queue, and the slots after the queue is gone.
    fn run_queue_case(&mut self, slots: &mut [Cell], script: u8) -> io::Result<()> {
        write!(self.out, "queue of {}:", slots.len())?;
        self.run_script(&mut Queue::new(slots), 5, script)?;
        write!(self.out, " slots")?;
        for slot in slots.iter() {
            write!(self.out, " {}", Shown(*slot))?;
        }
        writeln!(self.out, "")
    }
}

// ---- Cases of the spool: opening, the calls before and after it, and what is left in the bytes

// The marks of records, and another one, as no spool has.
const MARKS: [Option<Mark>; 4] = [
    Some(Mark::Taken),
    Some(Mark::Waiting),
    Some(Mark::Unused),
    None,
];

// Lengths about those of a short and of the longest spool.
const LENGTHS: [usize; 8] = [1, 49, 51, 99, 100, 65_500, 65_501, 65_550];

// The letter of a mark in the name of a case.
// Kept: no `Display`, since a mark's own is its name.
fn letter(mark: Option<Mark>) -> char {
    match mark {
        Some(Mark::Taken) => 't',
        Some(Mark::Waiting) => 'w',
        Some(Mark::Unused) => 'u',
        None => 'x',
    }
}

// The two bytes of a mark, or of another one.
fn bytes_of(mark: Option<Mark>) -> [u8; 2] {
    mark.map_or([0xA1, 0x00], <[u8; 2]>::from)
}

// The bytes of a spool whose records have these marks. Unused records hold octets too.
fn spool_bytes(heap: Global, marks: &[Option<Mark>]) -> Result<Vec<u8>, AllocError> {
    let mut bytes = Vec::new(heap);
    for (mark, number) in marks.iter().copied().zip(201u8..) {
        bytes.extend_from_slice(&bytes_of(mark))?;
        bytes.extend_from_slice(&sample(number).octets)?;
    }
    Ok(bytes)
}

impl<W: Write> Cases<W> {
    // Every list of up to three records with each mark and with another one, and bytes of other lengths.
    fn run_spools(&mut self) -> io::Result<()> {
        self.run_marks(&[])?;
        for a in MARKS {
            self.run_marks(&[a])?;
            for b in MARKS {
                self.run_marks(&[a, b])?;
                for c in MARKS {
                    self.run_marks(&[a, b, c])?;
                }
            }
        }
        self.run_lengths()
    }

    // The opening of these records; and if they are a spool, every script of four calls on it.
    fn run_marks(&mut self, marks: &[Option<Mark>]) -> io::Result<()> {
        self.run_opening(marks)?;
        let bytes = spool_bytes(self.heap, marks)?;
        if Survey::of(&bytes).is_ok() {
            for script in 0..16u8 {
                self.run_spool_case(marks, script)?;
            }
        }
        Ok(())
    }

    // One line: what is in the bytes, the opening, and the bytes afterwards.
    // Kept: like `run_spool_case` in how a line begins and ends.
    fn run_opening(&mut self, marks: &[Option<Mark>]) -> io::Result<()> {
        let mut bytes = spool_bytes(self.heap, marks)?;
        self.write_name("opening", marks)?;
        self.write_survey(&bytes)?;
        self.write_records(&bytes)?;
        self.use_before_open(&mut bytes)?;
        self.write_bytes(&bytes)?;
        writeln!(self.out, "")
    }

    // One line: the script, the bytes that are left, and opening them again.
    fn run_spool_case(&mut self, marks: &[Option<Mark>], script: u8) -> io::Result<()> {
        let mut bytes = spool_bytes(self.heap, marks)?;
        self.write_name("spool", marks)?;
        self.open_and_run(&mut bytes, 4, script)?;
        self.write_bytes(&bytes)?;
        self.open_and_run(&mut bytes, 0, 0)?;
        writeln!(self.out, "")
    }

    // Zero bytes of each length.
    fn run_lengths(&mut self) -> io::Result<()> {
        for len in LENGTHS {
            let mut bytes = vec![in self.heap; 0u8; len]?;
            write!(self.out, "length {len}:")?;
            self.use_before_open(&mut bytes)?;
            writeln!(self.out, "")?;
        }
        Ok(())
    }

    fn write_name(&mut self, what: &str, marks: &[Option<Mark>]) -> io::Result<()> {
        write!(self.out, "{what} ")?;
        for mark in marks {
            write!(self.out, "{}", letter(*mark))?;
        }
        write!(self.out, ":")
    }

    // What a survey of the bytes finds.
    fn write_survey(&mut self, bytes: &[u8]) -> io::Result<()> {
        match Survey::of(bytes) {
            Ok(
                Survey {
                    taken,
                    waiting,
                    unused,
                },
            ) => write!(self.out, " survey {taken} {waiting} {unused};"),
            Err(fault) => write!(self.out, " survey refused {fault};"),
        }
    }

    // The records of these bytes, and that there is none past the last.
    fn write_records(&mut self, bytes: &[u8]) -> io::Result<()> {
        write!(self.out, " records")?;
        for number in 0..4 {
            match Record::at(bytes, number) {
                Some(record) => self.write_record(record)?,
                None => write!(self.out, " none")?,
            }
        }
        write!(self.out, ";")
    }

    // A record: its mark, and its cell.
    fn write_record(&mut self, record: Record) -> io::Result<()> {
        match record.mark {
            Some(mark) => write!(self.out, " {mark}")?,
            None => write!(self.out, " unknown")?,
        }
        write!(self.out, " {}", Shown(record.cell))
    }

    // The bytes of a spool: the mark and the header octet of each record, and the checksum of all bytes.
    fn write_bytes(&mut self, bytes: &[u8]) -> io::Result<()> {
        write!(self.out, " bytes")?;
        for record in bytes.chunks(Record::LEN) {
            if let [first, second, header, ..] = record {
                write!(self.out, " {first:02X}{second:02X}/{header:02X}")?;
            }
        }
        write!(self.out, " sum {};", checksum(bytes))
    }

    // Opens a spool.
    // Kept: like `drop_first`. Each has its own word before the answer.
    fn open(&mut self, spool: &mut Spool<'_>) -> io::Result<()> {
        let answer = spool.open();
        write!(self.out, " open {};", done(answer))
    }

    // A spool before it is open, the opening, and the spool afterwards.
    fn use_before_open(&mut self, bytes: &mut [u8]) -> io::Result<()> {
        let mut spool = Spool::new(bytes);
        self.write_state(&spool)?;
        self.put(&mut spool, 1)?;
        self.drop_first(&mut spool)?;
        self.open(&mut spool)?;
        self.write_state(&spool)
    }

    // Opens the spool that these bytes have, and runs a script of so many calls on it.
    fn open_and_run(&mut self, bytes: &mut [u8], calls: u8, script: u8) -> io::Result<()> {
        let mut spool = Spool::new(bytes);
        self.open(&mut spool)?;
        self.run_script(&mut spool, calls, script)
    }
}

// ---- Cases of lines: every plan of up to two fates, over a link and over another line

// The fates of the plans.
const PLANS: [&[u16]; 13] = [
    &[],
    &[0],
    &[0, 0],
    &[0, 5],
    &[0, 256],
    &[5],
    &[5, 0],
    &[5, 5],
    &[5, 256],
    &[256],
    &[256, 0],
    &[256, 5],
    &[256, 256],
];

// The fates of two lines, one over the other.
#[derive(Clone, Copy)]
struct Pair {
    own: &'static [u16],
    below: &'static [u16],
}

impl<W: Write> Cases<W> {
    // Every plan over links, and every plan over every plan over a queue and a spool.
    fn run_lines(&mut self) -> io::Result<()> {
        for own in PLANS {
            for losses in 0..3 {
                self.run_link(own, losses)?;
            }
            for below in PLANS {
                let pair = Pair { own, below };
                self.run_queue(pair)?;
                self.run_spool(pair)?;
            }
        }
        Ok(())
    }

    // One line of text: a line over a link that loses so many cells first.
    fn run_link(&mut self, fates: &[u16], losses: usize) -> io::Result<()> {
        self.write_line(fates)?;
        let mut plan = plan_of(self.heap, fates)?;
        write!(self.out, "link {losses}:")?;
        let mut link = Link::new(losses);
        self.pass_cells(&mut Line::new(&mut link, &mut plan))?;
        writeln!(self.out, "")
    }

    // One line of text: a line over a line over a queue of one slot.
    // Kept: two functions, this one and `run_spool`. What they have in common is `pass_lines`; the rest is the carriage.
    fn run_queue(&mut self, pair: Pair) -> io::Result<()> {
        let (mut own, mut below) = self.plans(pair)?;
        write!(self.out, "queue:")?;
        let mut slots = [sample(101)];
        self.pass_lines(&mut Queue::new(&mut slots), &mut own, &mut below)?;
        writeln!(self.out, "")
    }

    // One line of text: a line over a line over a spool of four records, and the bytes that are left.
    fn run_spool(&mut self, pair: Pair) -> io::Result<()> {
        let (mut own, mut below) = self.plans(pair)?;
        let unused = Some(Mark::Unused);
        let mut bytes = spool_bytes(self.heap, &[Some(Mark::Taken), unused, unused, unused])?;
        write!(self.out, "spool:")?;
        let mut spool = Spool::new(&mut bytes);
        self.open(&mut spool)?;
        self.pass_lines(&mut spool, &mut own, &mut below)?;
        self.write_bytes(&bytes)?;
        writeln!(self.out, "")
    }

    // Passes cells through a line over a line over this carriage.
    fn pass_lines<C: Carriage>(
        &mut self,
        carriage: &mut C,
        own: &mut Plan,
        below: &mut Plan,
    ) -> io::Result<()> {
        let mut lower = Line::new(carriage, below);
        self.pass_cells(&mut Line::new(&mut lower, own))
    }

    // Puts five cells. Where one is refused, the first that waits is taken, and the cell is put once more.
    // At the end takes all.
    fn pass_cells<C: Carriage>(&mut self, carriage: &mut C) -> io::Result<()> {
        for number in 1..=5 {
            let accepted = self.put(carriage, number)?;
            if !accepted {
                self.take(carriage)?;
                self.put(carriage, number)?;
            }
        }
        for _ in 0..carriage.waiting() {
            self.take(carriage)?;
        }
        self.write_state(carriage)
    }

    // The name of a line: its fates.
    // Kept: like `write_name` of the spools, over another kind of words.
    fn write_line(&mut self, fates: &[u16]) -> io::Result<()> {
        write!(self.out, "line")?;
        for number in fates {
            write!(self.out, " {number}")?;
        }
        write!(self.out, " over ")
    }

    // Writes the fates of two lines, and answers their plans: the upper one, and the one below.
    fn plans(&mut self, pair: Pair) -> io::Result<(Plan, Plan)> {
        self.write_line(pair.own)?;
        self.write_line(pair.below)?;
        Ok((
            plan_of(self.heap, pair.own)?,
            plan_of(self.heap, pair.below)?,
        ))
    }
}

// ---- Cases of fates and of drafts: their edges, and what cells meet under the plan that is started

// Numbers about the largest that a fate has.
const NUMBERS: [u16; 6] = [0, 5, 255, 256, 257, 65_535];

// Places about the first and the last that a plan has.
const PLACES: [usize; 5] = [0, 1, 63, 64, usize::MAX];

impl<W: Write> Cases<W> {
    // Every number as a fate, added to drafts and written into them; and drafts in memory of several sizes.
    fn run_fates_and_drafts(&mut self) -> io::Result<()> {
        for number in NUMBERS {
            self.run_fate(number)?;
            self.run_drafts(number)?;
        }
        for capacity in [1, 63, 64, 100] {
            self.run_memory(capacity)?;
        }
        Ok(())
    }

    // The fate of a number, and the number of that fate.
    fn run_fate(&mut self, number: u16) -> io::Result<()> {
        write!(self.out, "fate {number}: ")?;
        match Fate::try_from(number) {
            Ok(fate @ Fate::Turn(mask)) => writeln!(self.out, "turn {mask} {}", u16::from(fate)),
            Ok(fate @ Fate::Lost) => writeln!(self.out, "lost {}", u16::from(fate)),
            Err(_) => writeln!(self.out, "none"),
        }
    }

    // A fate more in drafts, and another fate in them.
    fn run_drafts(&mut self, number: u16) -> io::Result<()> {
        for written in [0, 1, 63, 64] {
            self.run_change(written, format_args!("add {number}"), |draft| {
                draft.add(number)
            })?;
        }
        for written in [0, 1, 2, 64] {
            for place in PLACES {
                let call = format_args!("amend {place} {number}");
                self.run_change(written, call, |draft| draft.amend(place, number))?;
            }
        }
        Ok(())
    }

    // One line: a call that changes a draft of so many fates, 1, 2, 3 and so on; and what cells meet afterwards.
    fn run_change<D: Display + Drop, F: FnOnce(&mut Draft) -> Result<(), Fault>>(
        &mut self,
        written: u8,
        call: D,
        change: F,
    ) -> io::Result<()>
        requires { F.IsAlwaysCallable change }
    {
        let numbers: Vec<u16> = (1..=u16::from(written)).collect(self.heap)?;
        let mut draft = draft_of(self.heap, &numbers)?;
        let answer = change(&mut draft);
        write!(self.out, "draft of {written}: {call} {};", done(answer))?;
        let plan = draft.start();
        self.write_met(plan, written)
    }

    // One line: a draft in memory for so many fates, in which one stands already.
    fn run_memory(&mut self, capacity: usize) -> io::Result<()> {
        let mut memory = Vec::with_capacity(self.heap, capacity)?;
        memory.push(Fate::Lost)?;
        write!(self.out, "memory for {capacity}:")?;
        match Draft::new(memory) {
            Ok(draft) => self.write_met(draft.start(), 0),
            Err(_) => writeln!(self.out, " no draft"),
        }
    }

    // What cells meet under a plan that has started with so many fates: two cells more than there are fates.
    fn write_met(&mut self, mut plan: Plan, written: u8) -> io::Result<()> {
        let mut slots = [sample(101); 66];
        let mut queue = Queue::new(&mut slots);
        let mut line = Line::new(&mut queue, &mut plan);
        for number in 0..written.saturating_add(2) {
            let _ = line.put(sample(number));
        }
        write!(self.out, " arrived")?;
        for _ in 0..line.waiting() {
            let look = Answer(line.look().map(Shown));
            write!(self.out, " {look}")?;
            let _ = line.drop_first();
        }
        writeln!(self.out, "")
    }
}

// ---- All of them

fn main(rt: HostRuntime) -> io::Result<()> {
    let mut cases = Cases {
        out: BufWriter::new(rt.alloc(), rt.stdout())?,
        heap: rt.alloc(),
    };
    cases.run_queues()?;
    cases.run_spools()?;
    cases.run_lines()?;
    cases.run_fates_and_drafts()?;
    cases.out.flush()
}
