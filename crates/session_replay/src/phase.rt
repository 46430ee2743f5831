// Where a session stands between two of its steps.
use session_calls::Clock;

#[derive(Clone, Copy)]
pub enum Phase {
    // nothing is done yet
    Opening,
    // the listing is loaded
    Starting,
    // the machine runs; the trace is to be played from this offset on
    Reading(Clock, usize),
    // all is printed
    Over,
}

// A step: the next phase, and how many bytes were printed.
#[derive(Clone, Copy)]
pub struct Step {
    pub phase: Phase,
    pub printed: usize,
}

#[derive(Clone, Copy)]
pub enum Advanced {
    // the next phase, and how many bytes were printed
    Went(Phase, usize),
    // a lent memory is too short; nothing was touched
    TooShort,
}
