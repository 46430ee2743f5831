// One session, step by step, each piece held against the stored print.
ghost use Rattle.std.specs.Prelude.{true, ◌≡◌};
ghost use Rattle.walk.specs.Session.{session};
ghost use Rattle.session_replay.specs.Advancing.{long_enough};
ghost use Rattle.session_replay.specs.Ending.{is_over, AsLong};
ghost use Rattle.session_replay.specs.Phases.{memories};
ghost use Rattle.test_cases.specs.Words.{Tells};
ghost use Rattle.test_sessions.specs.Playing.{Follows, Takes};

use session_replay::{Advanced, Phase, advance};

// The place after the first n bytes of `out`, if they stand in the print at a place.
fn follows(print: &[u8], at: usize, out: &[u8], n: usize) -> Option<usize>
    ensures { Follows print.now at out.now n result }
{
    if out.len() < n {
        return None;
    }
    if print.len() < at {
        return None;
    }
    if print.len() - at < n {
        return None;
    }
    let to = at + n;
    if print[at..to] == out[..n] {
        Some(to)
    } else {
        None
    }
}

// A step that was right: the next phase, and how far the print has been matched.
#[derive(Clone, Copy)]
pub struct Step {
    pub phase: Phase,
    pub at: usize,
}

fn take_step(
    listing: &[u8],
    trace: &[u8],
    print: &[u8],
    table: &mut [u32],
    machine: &mut [u32],
    out: &mut [u8],
    step: Step,
) -> Option<Step>
    requires { long_enough table.old machine.old out.old ≡ true }
    ensures { Takes listing.now trace.now print.now
        (memories table.old machine.old out.old) step.phase step.at
        (memories table.new machine.new out.new) result }
{
    match advance(listing, trace, table, machine, out, step.phase) {
        // never: the memories are long enough
        Advanced::TooShort => None,
        Advanced::Went(phase, n) => {
            let at = follows(print, step.at, out, n)?;
            Some(Step { phase, at })
        }
    }
}

fn is_over(phase: Phase) -> bool
    ensures { result ≡ is_over phase }
{
    matches!(phase, Phase::Over)
}

// Is what is stored what the session prints?
pub fn plays(
    listing: &[u8],
    trace: &[u8],
    print: &[u8],
    table: &mut [u32],
    machine: &mut [u32],
    out: &mut [u8],
) -> bool
    requires { long_enough table.old machine.old out.old ≡ true }
    ensures { Tells result (print.now ≡ session listing.now trace.now)
        × AsLong (memories table.old machine.old out.old)
        (memories table.new machine.new out.new) }
{
    let mut step = Step {
        phase: Phase::Opening,
        at: 0,
    };
    while !is_over(step.phase) {
        let Some(next) = take_step(listing, trace, print, table, machine, out, step) else {
            return false;
        };
        step = next;
    }
    step.at == print.len()
}
