// The fields of a slot's row, read. `m` is the machine's memory, `s` a slot.
#![tactic(auto)]

pub mod row;

pub use row::{
    asleep, base, bits, child, children, level, low, own_count, parent, place, routine, used,
};
