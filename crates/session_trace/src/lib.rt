// Reads the trace of a session call by call, neighbours of equal time forming one call.
// Any bytes may come; a line out of form is an answer. Of the lent memory it writes the lists of a call's inputs alone.
#![tactic(auto)]

pub mod group;

pub use group::{Next, next_call};
