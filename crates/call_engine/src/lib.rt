// The calls on the engine: start and instant, of any memories.
#![tactic(auto)]

pub mod instant_call;
pub mod start_call;

pub use call_conclude::{Due, Failure, Figures};
pub use instant_call::instant;
pub use start_call::start;
