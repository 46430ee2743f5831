// What question 7 reads in a table: of a routine the variables it owns and the instruction at a place, and the child field that made a record.
#![tactic(auto)]

pub mod pick;
pub mod routines;
