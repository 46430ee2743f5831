// Why a line of a listing in form points to nothing (question 4): which name, jump or routine, and how many there are.
#![tactic(auto)]

pub mod around;
pub mod there;

pub use there::there_fault;
