// The outputs that an instant wrote, listed. `m` is the machine's memory.
#![tactic(auto)]

pub mod outputs;

pub use outputs::list_outputs;
