// What a reader finds in one header octet, and what follows from it.
ghost use Rattle.std.specs.Prelude.{◌≡◌};
ghost use Rattle.header.specs.Reading.{judged, fields_of, answered, next_mode};

use crate::code::named_bit;
use crate::reader::{Mode, Reading};

#[derive(Clone, Copy)]
pub(crate) enum Finding {
    /// The header holds as received.
    Intact,
    /// One bit is to be turned back.
    Correctable,
    Invalid,
}

impl Finding {
    /// By the mode, by whether the CRC agrees (syndrome 0), and by whether the number of ones is odd.
    pub(crate) fn judge(mode: Mode, agrees: bool, odd: bool) -> Finding
        ensures { result ≡ judged mode agrees odd }
    {
        match (mode, agrees, odd) {
            (_, true, false) => Finding::Intact,
            (Mode::Correction, _, true) => Finding::Correctable,
            _ => Finding::Invalid,
        }
    }

    /// What the reader answers of the octet.
    pub(crate) fn answer(self, octet: u8) -> Reading
        ensures { result ≡ answered self octet }
    {
        match self {
            Finding::Intact => fields(octet, true),
            Finding::Correctable => fields(octet ^ named_bit(octet), true),
            Finding::Invalid => fields(octet, false),
        }
    }

    /// The mode that follows.
    pub(crate) fn next_mode(self) -> Mode
        ensures { result ≡ next_mode self }
    {
        match self {
            Finding::Intact => Mode::Correction,
            Finding::Correctable | Finding::Invalid => Mode::Detection,
        }
    }
}

// The CSI and the count as they stand in an octet.
fn fields(octet: u8, valid: bool) -> Reading
    ensures { result ≡ fields_of octet valid }
{
    Reading {
        csi: octet / 128,
        count: octet / 16 % 8,
        valid,
    }
}
