// Edges stand on whole minutes. The whole minutes of a span, and the bits of a week's minutes; laws about the edges that they give.
#![tactic(auto)]

pub mod bits;
pub mod span;

pub use bits::{bit_of, next_minute};
pub use span::{first_minute, minutes_until};

// "an input below 16"
pub const INPUTS: u64 = 16;

// A minute in milliseconds, and a week in minutes.
pub const MINUTE: u64 = 60000;

pub const WEEK: u64 = 10080;
