// The loader puts its questions to a listing, in their order. Document 01: "The loader puts each question to the whole listing
// before the next; the place is the first line, from 1, where the answer is no (question 1: place 0)."
#![tactic(auto)]

pub mod answer;
pub mod opening;

pub use answer::{Loaded, put_questions};
