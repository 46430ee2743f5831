// What is said of a trace on a listing that loads: that it plays to its end, or the line and the reason at which the session is refused or stops.
#![tactic(auto)]

pub mod session;
pub mod told;

pub use session::put_session;
