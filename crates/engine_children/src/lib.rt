// A fork's new routines. Document 01: "At `F` all children exist and all `v` values are copied before the first child runs." `t` is
// the table, `m` the machine's memory, `me` the caller's slot, `s` the slot of a new routine.
#![tactic(auto)]

pub mod fork;

pub use fork::{NewSlots, fork_children, new_child};
