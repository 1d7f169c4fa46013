// A line: a plan of fates over any carriage. A plan is drafted first and then started.
#![tactic(auto)]

mod draft;
mod line;
mod plan;

pub use draft::{Draft, MAX_FATES};
pub use line::Line;
pub use plan::Plan;
