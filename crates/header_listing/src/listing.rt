// The listing as it goes through a recording, octet by octet.
ghost use Rattle.std.specs.Prelude.{◌≡◌};
ghost use Rattle.text.specs.Lines.{text_of};
ghost use Rattle.header_listing.specs.Text.{line_of, summary_of};
ghost use Rattle.header_listing.specs.Entries.{entry_of, opened, advanced, noted};

use crate::entry::Entry;
use header::{Mode, Reader};
use text::{Line, Piece};

/// How many octets were read, how many of them with a bit turned back, and how many were invalid.
/// A number that has come to the largest u64 stays there.
#[derive(Clone, Copy)]
pub(crate) struct Tally {
    pub read: u64,
    pub corrected: u64,
    pub invalid: u64,
}

/// The listing of one recording, as far as it has come.
#[derive(Clone, Copy)]
pub struct Listing {
    reader: Reader,
    tally: Tally,
}

impl Listing {
    /// Before the first octet.
    // Kept: no `Default`, which would be one more call that says the same.
    pub fn new() -> Listing
        ensures { result ≡ opened }
    {
        Listing {
            reader: Reader::new(),
            tally: Tally {
                read: 0,
                corrected: 0,
                invalid: 0,
            },
        }
    }

    /// The line of the octet that comes next.
    pub fn next(&mut self, octet: u8) -> Line
        ensures line { text_of result ≡ line_of (entry_of self.old.reader.mode octet) }
        ensures after { self.new ≡ advanced self.old octet }
    {
        self.enter(octet).line()
    }

    // One octet more.
    fn enter(&mut self, octet: u8) -> Entry
        ensures value { result ≡ entry_of self.old.reader.mode octet }
        ensures after { self.new ≡ advanced self.old octet }
    {
        let entry = Entry {
            octet,
            reading: self.reader.read(octet),
            mode: self.reader.mode(),
        };
        self.tally.note(entry);
        entry
    }

    /// The last line.
    pub fn summary(&self) -> Line
        ensures { text_of result ≡ summary_of self.now.tally }
    {
        self.tally.line()
    }
}

impl Tally {
    // One entry more.
    fn note(&mut self, entry: Entry)
        ensures { self.new ≡ noted self.old entry }
    {
        self.read = self.read.saturating_add(1);
        match (entry.reading.valid, entry.mode) {
            (false, _) => self.invalid = self.invalid.saturating_add(1),
            (true, Mode::Detection) => self.corrected = self.corrected.saturating_add(1),
            (true, Mode::Correction) => {}
        }
    }

    // The line that tells the numbers, with its line feed.
    // Kept: no `Display`, since a `fmt` may fail, and a line of the listing cannot.
    fn line(&self) -> Line
        ensures { text_of result ≡ summary_of self.now }
    {
        let Tally {
            read,
            corrected,
            invalid,
        } = *self;
        Line::of(&[
            Piece::Text("read "),
            Piece::Decimal(read),
            Piece::Text(" corrected "),
            Piece::Decimal(corrected),
            Piece::Text(" invalid "),
            Piece::Decimal(invalid),
            Piece::Text("\n"),
        ])
    }
}
