// The spool as a carriage. It has no fates, and its room is its unused records.
ghost use Rattle.std.specs.Prelude.{◌≡◌, length};
ghost use Rattle.cell.specs.declared.fault.Part.TheVariants.{Spool as InSpool};
ghost use Rattle.spool.specs.Records.{record_of, with_record, Within};
ghost use Rattle.spool.specs.Spools.{spool_meaning, Stored, Freed};

use crate::record::{Mark, Record};
use crate::spool::Spool;
use carriage::Carriage;
use cell::{Cell, Fault, Part, Refusal};

impl<'a> Carriage for Spool<'a> {
    ghost means = { spool_meaning };

    ghost part = { InSpool };

    ghost stores = { λ old cell new. Stored old cell new };

    ghost frees = { λ old new. Freed old new };

    fn put(&mut self, cell: Cell) -> Result<(), Fault> {
        if self.survey.unused == 0 {
            return Err(Fault::new(Refusal::Full, Part::Spool));
        }
        let number = self.survey.taken + self.survey.waiting;
        write_record(self.bytes, number, Mark::Waiting, cell);
        self.survey.unused -= 1;
        self.survey.waiting += 1;
        Ok(())
    }

    fn look(&self) -> Result<Cell, Fault> {
        match Record::at(self.bytes, self.survey.taken) {
            Some(found) if self.survey.waiting > 0 => Ok(found.cell),
            _ => Err(Fault::new(Refusal::Empty, Part::Spool)),
        }
    }

    fn drop_first(&mut self) -> Result<(), Fault> {
        let cell = self.look()?;
        write_record(self.bytes, self.survey.taken, Mark::Taken, cell);
        self.survey.waiting -= 1;
        self.survey.taken += 1;
        Ok(())
    }

    fn room(&self) -> usize {
        self.survey.unused
    }

    fn waiting(&self) -> usize {
        self.survey.waiting
    }
}

// Writes a mark and a cell into the record of this number. All other bytes stay as they are.
// Kept: the place is computed, since nothing is known of a slice once it was lent as chunks to be written.
fn write_record(bytes: &mut [u8], number: usize, mark: Mark, cell: Cell)
    requires { Within (length bytes.old) number }
    ensures { bytes.new ≡ with_record bytes.old number (record_of mark cell) }
{
    let start = Record::LEN * number;
    let mark = <[u8; 2]>::from(mark);
    // The mark last: until then a record that was unused still is, whatever its other bytes are.
    bytes[start + 2..start + Record::LEN].copy_from_slice(&cell.octets);
    bytes[start..start + 2].copy_from_slice(&mark);
}
