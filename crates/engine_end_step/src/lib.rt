// The instruction `E`, on the machine's words. `m` is the machine's memory.
#![tactic(auto)]

pub mod ending;

pub use ending::end_step;
