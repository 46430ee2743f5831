// The step after a call.
ghost use Rattle.std.specs.Prelude.{◌≡◌};
ghost use Rattle.session_replay.specs.After.{step_after};

use crate::phase::{Phase, Step};
use session_printed::calls::Made;

// The step after a call: "the first refusal or stop ends it", or the trace is played on from an offset with what the call told.
pub fn step_after(made: Made, at: usize) -> Step
    ensures { result ≡ step_after made at }
{
    match made {
        Made::Ended(printed) => Step {
            phase: Phase::Over,
            printed,
        },
        Made::Went(clock, printed) => Step {
            phase: Phase::Reading(clock, at),
            printed,
        },
    }
}
