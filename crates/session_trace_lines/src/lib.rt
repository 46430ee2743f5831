// Reads the lines of a trace by places. Document 01: "The trace, in the listing's style, has lines `I|time|input|value`
// (64, 32 and signed 32 bits), neighbours of equal time forming one call, and last `Q|time`."
// Any bytes may come; a line out of form is an answer. It writes nothing.
#![tactic(auto)]

pub mod field;
pub mod figure;
pub mod line;

pub use line::{TraceLine, read_trace_line};
