// The queue: a ring of cells. It has no fates, and its room is its free slots.
ghost use Rattle.cell.specs.declared.fault.Part.TheVariants.{Ring as InRing};
ghost use Rattle.ring.specs.Rings.{Pushed};
ghost use Rattle.carriage.specs.Queues.{queue_meaning, PoppedFirst};

use crate::carriage::Carriage;
use cell::{Cell, Fault};
use ring::Ring;

/// A ring of cells, as a carriage.
pub type Queue<'a> = Ring<'a, Cell>;

impl<'a> Carriage for Queue<'a> {
    ghost means = { queue_meaning };

    ghost part = { InRing };

    ghost stores = { λ old cell new. Pushed old cell new };

    ghost frees = { λ old new. PoppedFirst old new };

    fn put(&mut self, cell: Cell) -> Result<(), Fault> {
        self.push(cell)
    }

    fn look(&self) -> Result<Cell, Fault> {
        self.first()
    }

    fn drop_first(&mut self) -> Result<(), Fault> {
        self.pop()?;
        Ok(())
    }

    fn room(&self) -> usize {
        self.free()
    }

    fn waiting(&self) -> usize {
        self.len()
    }
}
