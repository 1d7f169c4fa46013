// A record: two bytes of a mark, then the 48 octets of a cell.
ghost use Rattle.std.specs.Prelude.{◌≡◌, length, slice_index, Some, MatchOption};
ghost use Rattle.std.specs.Result.{result_ok};
ghost use Rattle.spool.specs.Records.{mark_name, mark_of, mark_bytes, parted, record_at, Within};

use cell::Cell;
use std::fmt;

/// What the mark of a record tells.
#[derive(Clone, Copy, PartialEq, Eq, Debug)]
pub enum Mark {
    /// The cell was taken. The record is not used again.
    Taken,
    /// The cell waits.
    Waiting,
    /// The record holds no cell yet.
    Unused,
}

impl Mark {
    /// The mark's name, for people.
    // Kept beside `Display`, since this call cannot fail, and a `fmt` may.
    pub fn name(self) -> &'static str
        ensures { result.now ≡ mark_name self }
    {
        match self {
            Mark::Taken => "taken",
            Mark::Waiting => "waiting",
            Mark::Unused => "unused",
        }
    }
}

// Kept: one such block for each type that has a name, since no macro of the repository may write an impl.
impl fmt::Display for Mark {
    ghost output = { λ mark. Some (mark_name mark) };

    fn fmt<W: fmt::Write>(&self, f: &mut fmt::Formatter<W>) -> fmt::Result {
        f.write_str(self.name())
    }
}

/// One record, taken apart. A record with another mark has none.
#[derive(Clone, Copy)]
pub struct Record {
    pub mark: Option<Mark>,
    pub cell: Cell,
}

/// Two bytes that are no mark.
#[derive(Clone, Copy, PartialEq, Eq, Debug)]
pub struct NoMark;

impl TryFrom<[u8; 2]> for Mark {
    type Error = NoMark;

    // The mark that has these two bytes. Refused if none has.
    ghost try_from_gives = { λ bytes mark. result_ok mark ≡ mark_of (slice_index bytes 0) (slice_index bytes 1) };

    fn try_from(bytes: [u8; 2]) -> Result<Mark, NoMark> {
        match bytes {
            [0xA1, 0x02] => Ok(Mark::Taken),
            [0xA1, 0x01] => Ok(Mark::Waiting),
            [0x00, 0x00] => Ok(Mark::Unused),
            _ => Err(NoMark),
        }
    }
}

impl From<Mark> for [u8; 2] {
    // The two bytes of the mark.
    ghost from_gives = { λ mark bytes. bytes ≡ mark_bytes mark };

    fn from(mark: Mark) -> [u8; 2] {
        match mark {
            Mark::Taken => [0xA1, 0x02],
            Mark::Waiting => [0xA1, 0x01],
            Mark::Unused => [0x00, 0x00],
        }
    }
}

impl Record {
    /// How many bytes a record has.
    pub const LEN: usize = 50;

    /// The record of this number, from 0, among the records that stand one after the other in these bytes. None past the last.
    pub fn at(bytes: &[u8], number: usize) -> Option<Record>
        ensures { MatchOption result (Within (length bytes.now) number → ⊥) (λ found. Within (length bytes.now) number × (found ≡ parted (record_at bytes.now number))) }
    {
        let (records, _) = bytes.as_chunks::<{ Record::LEN }>();
        // Kept: a test and an index. Of `get(number)?` no edit could be refused for one place too far, and not for its form.
        if number >= records.len() {
            return None;
        }
        Some(Record::apart(&records[number]))
    }

    // Takes the bytes of a record apart.
    // Kept: a pattern that names the two bytes of the mark and the rest, as the rules of a record do. It is one of a slice, since
    // one of an array gets no proof.
    pub(crate) fn apart(bytes: &[u8; Record::LEN]) -> Record
        ensures { result ≡ parted bytes.now }
    {
        let [first, second, rest @ ..] = bytes.as_slice() else {
            unreachable()
        };
        let mut octets = [0; 48];
        octets.copy_from_slice(rest);
        Record {
            mark: Mark::try_from([*first, *second]).ok(),
            cell: Cell { octets },
        }
    }
}
