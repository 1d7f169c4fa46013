// Reading header octets, one after the other, in correction or in detection mode.
ghost use Rattle.std.specs.Prelude.{◌≡◌, Some};
ghost use Rattle.header.specs.declared.reader.Mode.TheVariants.{Correction};
ghost use Rattle.header.specs.Reading.{mode_name, reading, mode_after};
ghost use Rattle.header.specs.Laws.{Explained};

use crate::code::{parity, syndrome};
use crate::finding::Finding;
use std::fmt;

/// What the reader may do with a header that does not hold.
#[derive(Clone, Copy, PartialEq, Eq, Debug)]
pub enum Mode {
    /// One turned bit is turned back.
    Correction,
    /// Nothing is turned back.
    Detection,
}

impl Mode {
    /// The mode's name, for people.
    // Kept beside `Display`, since this call cannot fail, and a `fmt` may.
    pub fn name(self) -> &'static str
        ensures { result.now ≡ mode_name self }
    {
        match self {
            Mode::Correction => "correction",
            Mode::Detection => "detection",
        }
    }
}

// Kept: one such block for each type that has a name, since no macro of the repository may write an impl.
impl fmt::Display for Mode {
    ghost output = { λ mode. Some (mode_name mode) };

    fn fmt<W: fmt::Write>(&self, f: &mut fmt::Formatter<W>) -> fmt::Result {
        f.write_str(self.name())
    }
}

/// What was read from a header octet.
// Kept: no Option, since the CSI and the count are told of an invalid header too, as they were received.
#[derive(Clone, Copy, PartialEq, Eq, Debug)]
pub struct Reading {
    pub csi: u8,
    pub count: u8,
    pub valid: bool,
}

/// A reader of header octets, with its mode.
#[derive(Clone, Copy, PartialEq, Eq, Debug)]
pub struct Reader {
    mode: Mode,
}

impl Reader {
    /// A reader as it starts: in correction mode.
    // Kept: no `Default`, which would be one more call that says the same.
    pub fn new() -> Reader
        ensures { result.mode ≡ Correction }
    {
        Reader::in_mode(Mode::Correction)
    }

    /// A reader in the given mode.
    pub fn in_mode(mode: Mode) -> Reader
        ensures { result.mode ≡ mode }
    {
        Reader { mode }
    }

    /// The mode in which the next octet is read.
    pub fn mode(&self) -> Mode
        ensures { result ≡ self.now.mode }
    {
        self.mode
    }

    /// Reads one header octet, and moves the mode.
    #[tactic(auto, using(crate::proofs::Found::explained_so), unfolding(crate::specs::Reading::finding, crate::specs::Reading::reading, crate::specs::Reading::mode_after))]
    pub fn read(&mut self, octet: u8) -> Reading
        ensures value { result ≡ reading self.old.mode octet }
        ensures mode { self.new.mode ≡ mode_after self.old.mode octet }
        ensures explained { Explained self.old.mode octet result self.new.mode }
    {
        let finding = Finding::judge(self.mode, syndrome(octet) == 0, parity(octet) == 1);
        self.mode = finding.next_mode();
        finding.answer(octet)
    }
}
