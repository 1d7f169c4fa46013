// Laws of the listing. Each function does nothing: its promise is a theorem, which the check has to see proved.
ghost use Rattle.header_listing.specs.Laws.{NumbersCountOctets, CorrectedOctetsDiffer};

/// The three numbers are how many octets there were, how many were corrected, and how many invalid.
#[tactic(auto, using(crate::proofs::Numbers::counts))]
pub fn numbers_count_octets()
    ensures { NumbersCountOctets }
{}

/// An octet counts as corrected exactly if it is valid and is not itself the header that was read.
#[tactic(auto, using(crate::proofs::Corrected::corrected_differ))]
pub fn corrected_octets_differ()
    ensures { CorrectedOctetsDiffer }
{}
