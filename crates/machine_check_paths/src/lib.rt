// The path of the scan that question 7 makes over the records, and what a record makes of it.
#![tactic(auto)]

pub mod path;

pub use path::{Path, block_of, settle};
