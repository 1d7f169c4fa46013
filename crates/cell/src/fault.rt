// What a refused call tells: why, where it arose, and at which place.
ghost use Rattle.std.specs.Prelude.{◌≡◌, Some};
ghost use Rattle.cell.specs.Faults.{number_of, name_of, raised, fault_text};

use std::error::Error;
use std::fmt;

/// Why a call was refused. `u8::from` answers the number by which each is known.
#[derive(Clone, Copy, PartialEq, Eq, Debug)]
pub enum Refusal {
    /// The block size is 0 or over 4,096.
    BlockSize,
    /// The list of octets is longer than 4,096.
    ListTooLong,
    /// There is no room.
    Full,
    /// There is nothing to look at or to remove.
    Empty,
    /// The tray has fewer free slots than one take may fill.
    TrayTooFull,
    /// The CSI is over 1 or the sequence count over 7.
    HeaderField,
    /// The spool has no length that a spool can have.
    SpoolLength,
    /// A record of the spool has an unknown mark, or stands out of order.
    SpoolRecord,
    /// The number of a fate is over 256.
    FateNumber,
    /// The plan has 64 fates, which is all that it can hold.
    PlanFull,
    /// No fate is written at the place given.
    NoFate,
}

impl From<Refusal> for u8 {
    ghost from_gives = { λ refusal number. number ≡ number_of refusal };

    fn from(refusal: Refusal) -> u8 {
        match refusal {
            Refusal::BlockSize => 1,
            Refusal::ListTooLong => 2,
            Refusal::Full => 3,
            Refusal::Empty => 4,
            Refusal::TrayTooFull => 5,
            Refusal::HeaderField => 6,
            Refusal::SpoolLength => 7,
            Refusal::SpoolRecord => 8,
            Refusal::FateNumber => 9,
            Refusal::PlanFull => 10,
            Refusal::NoFate => 11,
        }
    }
}

/// The part where a refusal arose.
#[derive(Clone, Copy, PartialEq, Eq, Debug)]
pub enum Part {
    HeaderCode,
    Ring,
    Spool,
    Plan,
    NearEnd,
    FarEnd,
    /// A carriage that is brought from elsewhere.
    Carriage,
}

impl Part {
    /// The part's name, for people.
    // Kept beside `Display`, since this call cannot fail, and a `fmt` may.
    pub fn name(self) -> &'static str
        ensures { result.now ≡ name_of self }
    {
        match self {
            Part::HeaderCode => "header code",
            Part::Ring => "ring",
            Part::Spool => "spool",
            Part::Plan => "plan",
            Part::NearEnd => "near end",
            Part::FarEnd => "far end",
            Part::Carriage => "carriage",
        }
    }
}

// Kept: one such block for each type that has a name, since no macro of the repository may write an impl.
impl fmt::Display for Part {
    ghost output = { λ part. Some (name_of part) };

    fn fmt<W: fmt::Write>(&self, f: &mut fmt::Formatter<W>) -> fmt::Result {
        f.write_str(self.name())
    }
}

/// One refusal, passed up whole through every part above the one where it arose.
#[derive(Clone, Copy, PartialEq, Eq, Debug)]
pub struct Fault {
    pub refusal: Refusal,
    pub part: Part,
    // Kept: no Option, since a refusal that names no place tells 0, and is printed so.
    pub place: usize,
}

impl Fault {
    /// A refusal that names no place: its place is 0.
    pub fn new(refusal: Refusal, part: Part) -> Fault
        ensures { result ≡ raised refusal part 0 }
    {
        Fault {
            refusal,
            part,
            place: 0,
        }
    }

    /// The number by which the refusal is known.
    pub fn number(&self) -> u8
        ensures { result ≡ number_of self.now.refusal }
    {
        u8::from(self.refusal)
    }
}

impl fmt::Display for Fault {
    ghost output = { λ fault. Some (fault_text fault) };

    fn fmt<W: fmt::Write>(&self, f: &mut fmt::Formatter<W>) -> fmt::Result {
        write!(f, "{} {} {}", self.number(), self.part, self.place)
    }
}

impl Error for Fault {}
