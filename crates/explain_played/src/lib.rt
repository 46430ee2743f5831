// How a session ends: the code that its last line has, and where in the trace it stood. It is played step by step; what it prints is thrown away but for that line.
#![tactic(auto)]

pub mod ending;
pub mod last;
pub mod spot;

pub use ending::{Ended, how_it_ends};
pub use last::leading_figure;
