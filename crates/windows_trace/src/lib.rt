// A schedule's inputs as the lines of a session's trace, an hour at a time: neighbouring spans joined are the list of both.
// A store past the end of the lent bytes is none.
#![tactic(auto)]

pub mod hours;
pub mod lines;
pub mod schedules;
