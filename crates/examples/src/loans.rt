// What a lender knows of its memory once a ring, a spool or a line over them is gone.
ghost use Rattle.std.specs.Prelude.{◌≡◌, ◌<◌, length, MatchResult, slice_set};
ghost use Rattle.cell.specs.Faults.{raised};
ghost use Rattle.cell.specs.declared.fault.Refusal.TheVariants.{Full};
ghost use Rattle.carriage.specs.Fates.{next_fate, later_fates};
ghost use Rattle.line.specs.Lines.{PassedOn};
ghost use Rattle.line.specs.Plans.{ahead};
ghost use Rattle.examples.specs.Loans.{StoredOne};

use carriage::Carriage;
use cell::{Cell, Fault};
use line::{Line, Plan};
use ring::Ring;
use spool::Spool;

/// An entry is pushed into a ring over these slots: slot 0 holds it, and all others are as before.
pub fn push_one(slots: &mut [u8], entry: u8)
    ensures written { 0 < length slots.old → slots.new ≡ slice_set slots.old 0 entry }
    ensures full { length slots.old ≡ 0 → slots.new ≡ slots.old }
{
    let mut ring = Ring::new(slots);
    let _ = ring.push(entry);
}

/// A cell is put through a line over any carriage: exactly what this does to the carriage's store, and to the plan.
pub fn put_one<C: Carriage>(below: &mut C, plan: &mut Plan, cell: Cell) -> Result<(), Fault>
    ensures answer { MatchResult result (λ _. 0 < (C.Carriage.means below.old).room) (λ fault. ((C.Carriage.means below.old).room ≡ 0) × (fault ≡ raised Full C.Carriage.part 0)) }
    ensures store { MatchResult result (λ _. PassedOn C.Carriage.stores (next_fate (ahead plan.old)) below.old cell below.new) (λ _. below.new ≡ below.old) }
    ensures plan { MatchResult result (λ _. ahead plan.new ≡ later_fates (ahead plan.old)) (λ _. plan.new ≡ plan.old) }
{
    let mut line = Line::new(below, plan);
    line.put(cell)
}

/// A cell is put into a spool over these bytes: it stands in the first unused record, and all other bytes are as before.
pub fn store_one(bytes: &mut [u8], cell: Cell) -> Result<(), Fault>
    ensures { StoredOne bytes.old cell result bytes.new }
{
    let mut spool = Spool::new(bytes);
    spool.open()?;
    spool.put(cell)
}
