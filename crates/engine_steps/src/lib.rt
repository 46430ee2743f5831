// One instruction of the running routine, on the machine's words: what a step is handed and gives back, the next routine of the ready
// list, jumps, branches and waits. `t` is the table, `m` the machine's memory.
#![tactic(auto)]

pub mod control;
pub mod running;

pub use control::{branch_on, jump_on, wait_step};
pub use running::{Answer, Onward, Running, Stepped, next_ready};
