// Laws of carriages. The function does nothing: its promise is a theorem, which the check has to see proved.
ghost use Rattle.carriage.specs.Laws.{PutsArrive};

/// Cells that are put one after the other: what arrives of them, and which fates are left.
#[tactic(auto, using(crate::proofs::Arrivals::puts_arrive))]
pub fn puts_arrive()
    ensures { PutsArrive }
{}
