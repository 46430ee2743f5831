// The items of a case: a call (kind 0 the start, 1 an instant), a copy of the machine kept (2), or a comparison of the machine with that
// copy (any other kind).
#![tactic(auto)]

pub mod calls;
pub mod items;
