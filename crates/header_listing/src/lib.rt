// The listing of a recording's header octets: a line for each, and a last line with the numbers.
#![tactic(auto)]

mod entry;
mod laws;
mod listing;

pub use laws::{corrected_octets_differ, numbers_count_octets};
pub use listing::Listing;
