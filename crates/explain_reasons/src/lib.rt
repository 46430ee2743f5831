// The reason why a listing does not load, by the question that fails and its place.
#![tactic(auto)]

pub mod reason;
pub mod tally;

pub use reason::reason_at;
