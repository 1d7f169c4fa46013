// Lines of text, made without memory from an allocator.
#![tactic(auto)]

mod line;
mod piece;

pub use line::Line;
pub use piece::Piece;
