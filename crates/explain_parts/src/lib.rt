// The parts of a text between its separators, and bytes of an input shown so that none reaches a terminal raw.
#![tactic(auto)]

pub mod part;
pub mod shown;

pub use part::{count_parts, part_end, part_of};
pub use shown::put_shown;
