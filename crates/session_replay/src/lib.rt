// The session over byte slices, one step at a time. Document 01: "A session program reads a listing file and a trace file and prints the writes."
#![tactic(auto)]

pub mod advancing;
pub mod after;
pub mod from_phase;
pub mod phase;
pub mod reading;

pub use advancing::advance;
pub use phase::{Advanced, Phase};
