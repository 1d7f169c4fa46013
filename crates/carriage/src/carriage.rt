// What a carriage keeps to.
ghost use Rattle.std.specs.Prelude.{◌≡◌, length, MatchResult};
ghost use Rattle.cell.specs.declared.fault.Part.{Part as ThePart};
ghost use Rattle.cell.specs.declared.octets.Cell.{Cell as TheCell};
ghost use Rattle.carriage.specs.Meaning.{Meaning, Put, Look, DropFirst};

use cell::{Cell, Fault};

/// Whoever brings a carriage says what it means and what it does to its store, and shows that each call keeps to it.
pub trait Carriage {
    // what the carriage means: the cells that wait, its room, the fates ahead
    ghost means: { Self → Meaning };

    // the part that its refusals name
    ghost part: { ThePart };

    // exactly what an accepted put of a cell does to the store
    ghost stores: { Self → TheCell → Self → Type 0 };

    // exactly what an accepted drop does to the store
    ghost frees: { Self → Self → Type 0 };

    /// Puts a cell, which meets the next fate. Refused if there is no room.
    fn put(&mut self, cell: Cell) -> Result<(), Fault>
        ensures meaning { Put part cell (means self.old) result (means self.new) }
        ensures store { MatchResult result (λ _. stores self.old cell self.new) (λ _. self.new ≡ self.old) };

    /// The first cell that waits. Refused if none waits.
    fn look(&self) -> Result<Cell, Fault>
        ensures { Look part (means self.now) result };

    /// Removes the first cell that waits. Refused if none waits.
    fn drop_first(&mut self) -> Result<(), Fault>
        ensures meaning { DropFirst part (means self.old) result (means self.new) }
        ensures store { MatchResult result (λ _. frees self.old self.new) (λ _. self.new ≡ self.old) };

    /// The room: 0 exactly if the next put is refused.
    fn room(&self) -> usize
        ensures { result ≡ (means self.now).room };

    /// How many cells wait.
    fn waiting(&self) -> usize
        ensures { result ≡ length (means self.now).waiting };
}
