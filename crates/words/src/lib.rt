// The numbers of a board: words of 32 bits and their arithmetic, moments and delays.
// It uses no other crate.
#![tactic(auto)]

pub mod moment;
pub mod word;

pub use moment::{Delay, Later, Moment, later_moment};
pub use word::{
    all_zero, byte_number, is_positive, number, signed_less, wrapping_add, wrapping_multiply,
    wrapping_subtract,
};
