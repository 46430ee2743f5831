// What a line of a listing gives its table, and the lines that open a listing and a routine, `P` and `R`.
#![tactic(auto)]

pub mod line;
pub mod opens;

pub use line::{Holds, Target, WrittenLine};
