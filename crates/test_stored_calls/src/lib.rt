// One call as the file has it: its words, the answer stored for it, and the call itself, made on what is lent of the memories.
#![tactic(auto)]

pub mod calls;
pub mod reports;
