// Question 3: what the lines so far hold, against the limits.
#![tactic(auto)]

pub mod counts;
pub mod limits;

pub use limits::limit_place;
