// Writes the entry and the cells of each instruction but the fork. The layout is that of docs/LAYOUT.md.
#![tactic(auto)]

pub mod instruction;

pub use instruction::{
    write_assign, write_branch, write_end, write_jump, write_schedule, write_wait,
};
