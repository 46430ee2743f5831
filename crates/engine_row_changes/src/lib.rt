// A row changed: where its routine goes on, how many children are left, its end. `m` is the machine's memory, `s` a slot.
#![tactic(auto)]

pub mod changes;

pub use changes::{free, set_children, set_place};
