// The inputs of an instant, and who wakes by them. `m` is the machine's memory.
#![tactic(auto)]

pub mod inputs;

pub use inputs::write_inputs;
