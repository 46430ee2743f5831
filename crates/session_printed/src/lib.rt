// The session's calls on the engine, the start and the instant, each with what is printed of it.
#![tactic(auto)]

pub mod calls;
