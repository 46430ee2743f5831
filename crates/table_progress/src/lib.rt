// How far a table is written: the counts, and the header and the routine entries, line by line.
#![tactic(auto)]

pub mod progress;

pub use progress::{Progress, advance, enter};
