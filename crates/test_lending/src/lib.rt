// What is lent to a call that the tests make: how much of each memory, which first word is spoilt, and what the call must leave of the machine.
#![tactic(auto)]

pub mod machine;
pub mod places;
