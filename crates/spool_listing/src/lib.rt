// The listing of a spool's records: a line for each, and a last line with the numbers.
#![tactic(auto)]

mod listing;

pub use listing::{Listing, refusal_line};
