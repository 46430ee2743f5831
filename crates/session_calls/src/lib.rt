// The calls that a session makes on the engine, the start and the instant, without a print; the clock between them, and what is due.
#![tactic(auto)]

pub mod calls;
pub mod clock;

pub use calls::{Called, make_instant, make_start};
pub use clock::{Clock, due_before, due_until};
