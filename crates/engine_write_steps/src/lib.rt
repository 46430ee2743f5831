// The instructions `S` and `A`, on the machine's words. `t` is the table, `m` the machine's memory.
#![tactic(auto)]

pub mod writes;

pub use writes::{assign_on, assign_step, schedule_on};
