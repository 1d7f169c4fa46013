// The two types that every part of the product shares: what is carried, and what a refusal tells.
#![tactic(auto)]

mod fault;
mod octets;

pub use fault::{Fault, Part, Refusal};
pub use octets::Cell;
