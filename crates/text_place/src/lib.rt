// The reading place in a text, by value: offset and line, moved past a piece. Any bytes may come; it writes nothing.
#![tactic(auto)]

pub mod past;
pub mod place;

pub use place::{Place, Taken, take_piece};
