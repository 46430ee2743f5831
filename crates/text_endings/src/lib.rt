// Question 5, put to the whole listing in one pass over its lines. Question 2 has let the listing through.
// It writes nothing.
#![tactic(auto)]

pub mod endings;

pub use endings::ending_place;
