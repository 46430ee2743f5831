// The end of a call on the engine: its answer, the stopped form or the outputs listed, and the machine's words brought to rest.
#![tactic(auto)]

pub mod answers;
pub mod ending;

pub use answers::{Due, Failure, Figures};
pub use ending::conclude;
