// Main's row and names. `t` is the table, `m` the machine's memory, `s` the slot that is filled in.
#![tactic(auto)]

pub mod main_routine;

pub use main_routine::{fill_main, main_row};
