// A ring buffer: first in, first out, over slots of the caller, for entries of every kind that can be copied.
#![tactic(auto)]

mod ring;

pub use ring::Ring;
