// A ring buffer over slots of the caller, and its calls.
#![tactic(auto, using(crate::proofs::Rings::counts))]

ghost use Rattle.std.specs.Prelude.{◌≡◌, ◌+◌, ◌-◌, ◌%◌, ◌<◌, ◌≤◌, ◌↔◌, [], length, IsTrue};

use cell::{Fault, Part, Refusal};

// Kept: no VecDeque, since the slots are the caller's memory and nothing here allocates.
// Kept: no Model (tried): with one, the lender of the slots knows nothing of them after the ring has gone.
/// The entries stand in `count` slots from `head` on, round the end; the oldest is in `head`.
#[derive(Drop)]
pub struct Ring<'a, T> {
    slots: &'a mut [T],
    head: usize,
    count: usize,
    ghost fits: { (count ≤ length slots.now) × (0 < length slots.now → head < length slots.now) },
}

impl<'a, T: Copy> Ring<'a, T> {
    ghost use Rattle.ring.specs.Rings.{entries, slots_of, loan_of, next_slot, Push, Pop, First};

    /// An empty ring over these slots, which stay as they are. The first push writes slot 0.
    #[tactic(auto, using(crate::proofs::Rings::counts), unfolding(crate::specs::Rings::next_slot))]
    pub fn new(slots: &'a mut [T]) -> Ring<'a, T>
        ensures empty { entries result ≡ [] }
        ensures over { slots_of result ≡ slots.old }
        ensures next { next_slot result ≡ 0 }
        ensures loan { loan_of result ≡ slots.entry.ghost_name }
    {
        Ring {
            slots,
            head: 0,
            count: 0,
        }
    }

    /// How many entries there are.
    pub fn len(&self) -> usize
        ensures { result ≡ length (entries self.now) }
    {
        self.count
    }

    /// Whether there is no entry.
    pub fn is_empty(&self) -> bool
        ensures { IsTrue result ↔ (entries self.now ≡ []) }
    {
        self.count == 0
    }

    /// How many slots are free: how many more pushes are accepted.
    pub fn free(&self) -> usize
        ensures { result ≡ length (slots_of self.now) - length (entries self.now) }
    {
        self.slots.len() - self.count
    }

    /// Puts an entry at the end, into the next slot. Refused if no slot is free.
    pub fn push(&mut self, entry: T) -> Result<(), Fault>
        ensures { Push self.old entry result self.new }
    {
        if self.count >= self.slots.len() {
            return Err(Fault::new(Refusal::Full, Part::Ring));
        }
        let at = self.next_slot();
        self.slots[at] = entry;
        self.count += 1;
        Ok(())
    }

    /// Takes the oldest entry away and answers it. Its slot keeps what it holds. Refused if there is none.
    pub fn pop(&mut self) -> Result<T, Fault>
        ensures { Pop self.old result self.new }
    {
        let oldest = self.first()?;
        self.head = self.next_head();
        self.count -= 1;
        Ok(oldest)
    }

    /// The oldest entry. Refused if there is none.
    #[tactic(auto, using(crate::proofs::Rings::counts, crate::proofs::Rings::first_is))]
    pub fn first(&self) -> Result<T, Fault>
        ensures { First self.now result }
    {
        if self.is_empty() {
            return Err(Fault::new(Refusal::Empty, Part::Ring));
        }
        Ok(self.slots[self.head])
    }

    // The slot behind the head, round the end.
    // Kept: a test and no `%`, which would divide, and takes several times as long.
    #[tactic(auto, using(crate::proofs::Round::behind_near, crate::proofs::Round::behind_last))]
    fn next_head(&self) -> usize
        requires { self.now.head < length self.now.slots.now }
        ensures { result ≡ (self.now.head + 1) % length self.now.slots.now }
    {
        let after = self.head + 1;
        if after < self.slots.len() { after } else { 0 }
    }

    // The slot that the next push writes.
    // Kept: no `%` here, and head and count are compared before they are added, since their sum may not fit.
    #[tactic(auto, unfolding(crate::specs::Rings::next_slot))]
    fn next_slot(&self) -> usize
        requires { self.now.count < length self.now.slots.now }
        ensures value { result ≡ next_slot self.now }
        ensures within { result < length (slots_of self.now) }
    {
        let to_end = self.slots.len() - self.head;
        if self.count < to_end {
            self.head + self.count
        } else {
            self.count - to_end
        }
    }
}
