// Why question 19 refuses a schedule: the first line where it says no, and the first reason there, in the order of the fields.
#![tactic(auto)]

pub mod line;
pub mod place;
pub mod ranges;
pub mod reasons;

pub use place::{reason_at, refused_line};
pub use reasons::Reason;
