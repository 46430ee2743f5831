// The beginning of a call: the working words of the live routines are filled in, in walking order. A routine's parent is the last
// slot seen one level up, and its child field there gives the rest. `t` is the table, `m` the machine's memory.
#![tactic(auto)]

pub mod pass;

pub use pass::fill_rows;
