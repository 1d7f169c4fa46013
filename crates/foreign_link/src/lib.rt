// An example of a carriage from elsewhere: none of the product's own, and proved against the same trait.
#![tactic(auto)]

mod link;

pub use link::Link;
