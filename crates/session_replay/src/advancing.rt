// One step of a session, from any phase.
ghost use Rattle.std.specs.Prelude.{◌≡◌, ◌≤◌, length};
ghost use Rattle.table.specs.Areas.{HasTable};
ghost use Rattle.machine.specs.Words.{HasMachine};
ghost use Rattle.session_replay.specs.Advancing.{lengths_suffice, Advances};
ghost use Rattle.session_replay.specs.Phases.{memories, Does};

use crate::from_phase::{from_opening, from_starting};
use crate::phase::{Advanced, Phase, Step};
use crate::reading::from_reading;
use machine::MACHINE_WORDS;
use table::TABLE_WORDS;

// Are memories of these lengths long enough?
fn long_enough(table: usize, machine: usize, out: usize) -> bool
    ensures { result ≡ lengths_suffice table machine out }
{
    if table < TABLE_WORDS {
        return false;
    }
    if machine < MACHINE_WORDS {
        return false;
    }
    out >= 1100
}

// The step, with memories that are long enough.
fn step_on(
    listing: &[u8],
    trace: &[u8],
    table: &mut [u32],
    machine: &mut [u32],
    out: &mut [u8],
    phase: Phase,
) -> Step
    requires { HasTable table.old × HasMachine machine.old × (1100 ≤ length out.old) }
    ensures { Does listing.now trace.now (memories table.old machine.old out.old)
        (memories table.new machine.new out.new) result phase }
{
    match phase {
        Phase::Opening => from_opening(listing, trace, table, out),
        Phase::Starting => from_starting(table, machine, out),
        Phase::Reading(clock, at) => from_reading(trace, table, machine, out, clock, at),
        Phase::Over => Step {
            phase: Phase::Over,
            printed: 0,
        },
    }
}

// One step of the session: at most one call on the engine with its `O` lines, or the `X` line.
pub fn advance(
    listing: &[u8],
    trace: &[u8],
    table: &mut [u32],
    machine: &mut [u32],
    out: &mut [u8],
    phase: Phase,
) -> Advanced
    ensures { Advances listing.now trace.now table.old machine.old out.old phase
        table.new machine.new out.new result }
{
    if !long_enough(table.len(), machine.len(), out.len()) {
        return Advanced::TooShort;
    }
    let step = step_on(listing, trace, table, machine, out, phase);
    let next = step.phase;
    let printed = step.printed;
    Advanced::Went(next, printed)
}
