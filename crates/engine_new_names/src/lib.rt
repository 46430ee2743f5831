// The names of a new routine, and the values passed to it. `t` is the table, `m` the machine's memory, `me` the caller's slot, `s`
// the slot of a new routine.
#![tactic(auto)]

pub mod names;
pub mod values;

pub use names::{bind_names, bind_own};
pub use values::pass_values;
