// The beginning of an instant: its rows are filled in, sleepers are listed, due writes and inputs are made, which make routines
// ready. `t` is the table, `m` the machine's memory.
#![tactic(auto)]

pub mod instant;

pub use instant::begin_instant;
