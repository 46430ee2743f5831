// The words of a new routine's row but for its variables and names, and the slot that it takes. `m` is the machine's memory,
// `me` the caller's slot, `s` the slot of a new routine.
#![tactic(auto)]

pub mod rows;
pub mod slots;

pub use rows::{Parent, parent_of, put_kept, put_working};
pub use slots::free_slot;
