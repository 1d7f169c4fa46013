// A plan that is being written, and how it starts.
ghost use Rattle.std.specs.Prelude.{◌≡◌, ◌<◌, ◌≤◌, [], vec_len, vec_capacity, MatchResult};
ghost use Rattle.line.specs.declared.draft.TheConstants.{MAX_FATES};

use crate::plan::Plan;
use carriage::Fate;
use cell::{Fault, Part, Refusal};
use std::alloc::AllocError;

/// How many fates a plan can hold.
pub const MAX_FATES: usize = 64;

/// The fates that are written, in the order in which cells are to meet them.
// Kept: a struct of its own. In `Draft`, which has a fact to keep, the clause `lends` of `entry` stayed open.
#[derive(Drop)]
struct Table {
    fates: Vec<Fate>,
}

impl Table {
    ghost use Rattle.std.specs.Borrow.{sem};
    ghost use Rattle.std.specs.List.{IsItemAtMut};
    ghost use Rattle.line.specs.Drafts.{LendsFate};

    // The fate that is written at a place, lent to be changed.
    fn entry(&mut self, place: usize) -> Option<&mut Fate>
        ensures* lends { sem 𝓛 (LendsFate self.entry place result) }
        ensures found { IsItemAtMut self.old.fates.items place result }
    {
        self.fates.get_mut(place)
    }
}

// Kept: no Model. A refused call promises that the draft is equal to what it was, and not only that the same is written.
/// A plan that is being written: up to `MAX_FATES` fates, for which there is memory from the start.
#[derive(Drop)]
pub struct Draft {
    table: Table,
    ghost few: { (vec_len table.fates ≤ MAX_FATES) × (MAX_FATES ≤ vec_capacity table.fates) },
}

impl Draft {
    ghost use Rattle.line.specs.Drafts.{written, Added, Amended};
    ghost use Rattle.line.specs.Plans.{ahead};

    /// A draft in which nothing is written, in memory for at least `MAX_FATES` fates. With less memory there is none.
    pub fn new(memory: Vec<Fate>) -> Result<Draft, AllocError>
        ensures { MatchResult result
            (λ draft. (MAX_FATES ≤ vec_capacity memory) × (written draft ≡ []))
            (λ _. vec_capacity memory < MAX_FATES) }
    {
        let mut fates = memory;
        if fates.capacity() < MAX_FATES {
            return Err(AllocError);
        }
        fates.clear();
        Ok(Draft {
            table: Table { fates },
        })
    }

    /// Writes one fate more, by its number.
    /// Refused if no fate has this number, then if the plan has all the fates that it can hold.
    // Kept: a number and no `Fate`, since this call is what refuses a number that no fate has.
    pub fn add(&mut self, number: u16) -> Result<(), Fault>
        ensures { Added self.old number result self.new }
    {
        let fate = Fate::try_from(number)?;
        if self.table.fates.len() >= MAX_FATES {
            return Err(Fault::new(Refusal::PlanFull, Part::Plan));
        }
        self.table.fates.push_reserved(fate);
        Ok(())
    }

    /// Changes a fate that is written, by its place and its new number.
    /// Refused if no fate is written there, then if no fate has this number.
    // Kept: a number, as in `add`.
    pub fn amend(&mut self, place: usize, number: u16) -> Result<(), Fault>
        ensures { Amended self.old place number result self.new }
    {
        // Kept: a test and then the loan. Where the loan is the test, an edit of the place also accepts one past the last.
        if place >= self.table.fates.len() {
            return Err(Fault {
                refusal: Refusal::NoFate,
                part: Part::Plan,
                place,
            });
        }
        let fate = Fate::try_from(number)?;
        if let Some(written) = self.table.entry(place) {
            *written = fate;
        }
        Ok(())
    }

    /// Starts the plan. The draft is gone, and nothing can write into the plan any more.
    pub fn start(self) -> Plan
        ensures { ahead result ≡ written self }
    {
        Plan {
            fates: self.table.fates,
            used: 0,
        }
    }
}
