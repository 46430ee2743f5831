// The due writes of an instant, and who wakes by them; contracts speak of rows, environment and ready list. `m` is the machine's memory.
#![tactic(auto)]

pub mod due;

pub use due::make_due_at;
