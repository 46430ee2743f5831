// The stored cases of the valve book's pages: their lists and figures read.
#![tactic(auto)]

pub mod cases;
