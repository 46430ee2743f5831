// The beginning of a call: the working words of one live routine, from its child field. `t` is the table, `m` the machine's memory, `s`
// the slot that is filled in, `p` its parent's.
#![tactic(auto)]

pub mod field;
pub mod row;

pub use field::wait_mark;
pub use row::fill_child;
