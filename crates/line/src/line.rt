// A line, over any carriage.
ghost use Rattle.std.specs.Prelude.{◌≡◌};

use crate::plan::Plan;
use carriage::{Carriage, Fate};
use cell::{Cell, Fault};

/// A plan over a carriage: a cell that is put meets the plan's next fate, and then goes into the carriage below.
#[derive(Drop)]
pub struct Line<'c, 'p, C> {
    below: &'c mut C,
    plan: &'p mut Plan,
}

impl<'c, 'p, C: Carriage> Line<'c, 'p, C> {
    ghost use Rattle.line.specs.Lines.{line_meaning, Composes};
    ghost use Rattle.line.specs.Plans.{ahead};

    /// A line over this carriage, with this plan. Neither changes, and both loans are kept.
    #[tactic(auto, using(crate::proofs::Composed::composes))]
    pub fn new(below: &'c mut C, plan: &'p mut Plan) -> Line<'c, 'p, C>
        ensures below { (result.below.now ≡ below.old) × (result.below.ghost_name ≡ below.entry.ghost_name) }
        ensures plan { (result.plan.now ≡ plan.old) × (result.plan.ghost_name ≡ plan.entry.ghost_name) }
        ensures composes { Composes (ahead plan.old) (C.Carriage.means below.old).fates (line_meaning C.Carriage.means result).fates }
    {
        Line { below, plan }
    }
}

impl<'c, 'p, C: Carriage> Carriage for Line<'c, 'p, C> {
    ghost use Rattle.line.specs.Lines.{line_meaning, StoresThrough, FreesThrough};

    ghost means = { line_meaning C.Carriage.means };

    ghost part = { C.Carriage.part };

    ghost stores = { StoresThrough C.Carriage.stores };

    ghost frees = { FreesThrough C.Carriage.frees };

    #[tactic(auto, using(crate::proofs::Puts::put_passed))]
    fn put(&mut self, cell: Cell) -> Result<(), Fault> {
        if self.below.room() == 0 {
            return self.below.put(cell);
        }
        match self.plan.step() {
            Fate::Turn(mask) => self.below.put(cell.turn(mask)),
            Fate::Lost => Ok(()),
        }
    }

    fn look(&self) -> Result<Cell, Fault> {
        self.below.look()
    }

    fn drop_first(&mut self) -> Result<(), Fault> {
        self.below.drop_first()
    }

    fn room(&self) -> usize {
        self.below.room()
    }

    fn waiting(&self) -> usize {
        self.below.waiting()
    }
}
