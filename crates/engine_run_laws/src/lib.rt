// Definitions and theorems: what a run asks of the words, and that each step keeps it; and how a run ends.
#![tactic(auto)]

// The instant ended: the steps left, the live routines, the waits passed.
#[derive(Clone, Copy)]
pub struct Left {
    pub left: u32,
    pub live: u32,
    pub woken: u32,
}

// Ended, or stopped under a number.
#[derive(Clone, Copy)]
pub enum Ran {
    Ended(Left),
    Stopped(u32),
}
