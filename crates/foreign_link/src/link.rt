// The link, and the link as a carriage. A cell that is lost takes no room, and a drop gives room back.
ghost use Rattle.std.specs.Prelude.{◌≡◌};

use carriage::Carriage;
use cell::{Cell, Fault, Part, Refusal};

/// A link that has to lock first: its first cells are lost. Then it holds one cell at a time.
#[derive(Clone, Copy)]
pub struct Link {
    // how many cells are still to be lost
    unlocked: usize,
    held: Option<Cell>,
}

impl Link {
    ghost use Rattle.foreign_link.specs.Links.{opened};

    /// A link that holds nothing, and that loses so many cells before it is locked.
    pub fn new(unlocked: usize) -> Link
        ensures { result ≡ opened unlocked }
    {
        Link {
            unlocked,
            held: None,
        }
    }
}

impl Carriage for Link {
    ghost use Rattle.cell.specs.declared.fault.Part.TheVariants.{Carriage as Foreign};
    ghost use Rattle.foreign_link.specs.Links.{link_meaning, stored, freed};

    ghost means = { link_meaning };

    ghost part = { Foreign };

    ghost stores = { λ old cell new. new ≡ stored old cell };

    ghost frees = { λ old new. new ≡ freed old };

    fn put(&mut self, cell: Cell) -> Result<(), Fault> {
        if self.held.is_some() {
            return Err(Fault::new(Refusal::Full, Part::Carriage));
        }
        if self.unlocked > 0 {
            self.unlocked -= 1;
        } else {
            self.held = Some(cell);
        }
        Ok(())
    }

    fn look(&self) -> Result<Cell, Fault> {
        self.held.ok_or(Fault::new(Refusal::Empty, Part::Carriage))
    }

    fn drop_first(&mut self) -> Result<(), Fault> {
        self.look()?;
        self.held = None;
        Ok(())
    }

    fn room(&self) -> usize {
        usize::from(self.held.is_none())
    }

    fn waiting(&self) -> usize {
        usize::from(self.held.is_some())
    }
}
