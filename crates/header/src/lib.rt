// The header code of ITU-T I.363.1: sealing a CSI and a sequence count into a header octet, and reading one back.
#![tactic(auto)]

mod code;
mod finding;
mod reader;

pub use code::seal;
pub use reader::{Mode, Reader, Reading};
