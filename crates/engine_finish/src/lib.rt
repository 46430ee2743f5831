// The end of an instant: the machine's words as they stand between calls. `m` is the machine's memory.
#![tactic(auto)]

pub mod ending;
pub mod places;
pub mod working;

pub use ending::finish;
