// The spool: a carriage over bytes of the caller, which keeps what it was given and what was taken.
#![tactic(auto)]

mod carried;
mod record;
mod spool;
mod survey;

pub use record::{Mark, NoMark, Record};
pub use spool::Spool;
pub use survey::Survey;
