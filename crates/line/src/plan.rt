// A plan that has started.
ghost use Rattle.std.specs.Prelude.{◌≡◌};

use carriage::Fate;

/// A plan that has started. It can be stepped through, and not be written any more.
// Kept, a list and how many of it are used: an `IntoIter` goes round the end of a deque, and a put through a line took a quarter
// longer. It also shows no fate without using it up, so that a step which stays where it is could not be written down as an edit.
#[derive(Drop)]
pub struct Plan {
    pub(crate) fates: Vec<Fate>,
    // how many of them have been used up
    pub(crate) used: usize,
}

impl Plan {
    ghost use Rattle.carriage.specs.Fates.{next_fate, later_fates};
    ghost use Rattle.line.specs.Plans.{ahead};

    /// Uses up the next fate and answers it. With none left it answers that no bit is turned.
    pub(crate) fn step(&mut self) -> Fate
        ensures value { result ≡ next_fate (ahead self.old) }
        ensures left { ahead self.new ≡ later_fates (ahead self.old) }
    {
        if self.used >= self.fates.len() {
            return Fate::Turn(0);
        }
        let fate = self.fates[self.used];
        self.used += 1;
        fate
    }
}
