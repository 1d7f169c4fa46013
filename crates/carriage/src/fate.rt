// What becomes of a cell on its way.
ghost use Rattle.std.specs.Prelude.{◌≡◌};
ghost use Rattle.carriage.specs.Fates.{number_of, FateNumbered};

use cell::{Fault, Part, Refusal};

/// The fate of one cell: the header bits that are turned, or lost.
#[derive(Clone, Copy, PartialEq, Eq, Debug)]
pub enum Fate {
    /// The header bits that are set in the mask are turned. With mask 0 the cell arrives as it is.
    Turn(u8),
    /// The cell does not arrive.
    Lost,
}

impl From<Fate> for u16 {
    // The number of a fate: the mask, or 256 for lost.
    ghost from_gives = { λ fate number. number ≡ number_of fate };

    fn from(fate: Fate) -> u16 {
        match fate {
            Fate::Turn(mask) => u16::from(mask),
            Fate::Lost => 256,
        }
    }
}

impl TryFrom<u16> for Fate {
    type Error = Fault;

    // The fate that has this number. Refused, as by a plan, if none has.
    ghost try_from_gives = { FateNumbered };

    fn try_from(number: u16) -> Result<Fate, Fault> {
        match u8::try_from(number) {
            Ok(mask) => Ok(Fate::Turn(mask)),
            Err(_) if number == 256 => Ok(Fate::Lost),
            Err(_) => Err(Fault::new(Refusal::FateNumber, Part::Plan)),
        }
    }
}
