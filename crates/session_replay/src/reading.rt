// The steps of a session that runs: "The program makes every due instant between, joining one with inputs of its time, and those due up to Q's time".
ghost use Rattle.std.specs.Prelude.{◌≡◌, ◌≤◌, ◌<◌, length, take};
ghost use Rattle.table.specs.Areas.{HasTable};
ghost use Rattle.machine.specs.Words.{HasMachine};
ghost use Rattle.listing.specs.Listing.{Listing};
ghost use Rattle.words.specs.Moments.{moment_range};
ghost use Rattle.walk.specs.Session.{end_code};
ghost use Rattle.session_replay.specs.Phases.{TowardCall, UntilEnd, FromReading};

use crate::after::step_after;
use crate::from_phase::end_with;
use crate::phase::{Phase, Step};
use call_engine::Due;
use session_calls::{Clock, due_before, due_until};
use session_printed::calls::print_instant;
use session_trace::{Next, next_call};

// The inputs of a call: they are local to the step that reads them.
fn inputs() -> [u32; 17]
    ensures { 17 ≡ length result }
{
    [0; 17]
}

// A due instant before the call that is read at an offset, after which it is read again; or the call, after which the trace goes on at the next offset.
fn toward_call(
    table: &[u32],
    machine: &mut [u32],
    numbers: &[u32],
    values: &[u32],
    out: &mut [u8],
    clock: Clock,
    time: u64,
    count: usize,
    at: usize,
    next: usize,
) -> Step
    requires { HasTable table.now × HasMachine machine.old × (count ≤ length numbers.now) × (count ≤ length values.now) × (1100 ≤ length out.old) }
    ensures { (time < moment_range) × TowardCall table.now machine.old out.old clock time
        (take count numbers.now) (take count values.now) at next machine.new out.new result }
{
    let present = clock.now;
    let due = clock.due;
    let soon = due_before(due, time);
    let Due::At(m) = soon else {
        let made = print_instant(table, machine, present, time, numbers, values, count, out);
        return step_after(made, next);
    };
    let made = print_instant(table, machine, present, m, numbers, values, 0, out);
    step_after(made, at)
}

// "A line out of form when it is reached, one after `Q` .. has code 2"
fn end_code(nothing_after: bool) -> u32
    ensures { (l : Listing) → result ≡ end_code l nothing_after }
{
    if nothing_after {
        return 0;
    }
    2
}

// A due instant up to the time of the last line, which is read at an offset, after which it is read again; or the end.
fn until_end(
    table: &[u32],
    machine: &mut [u32],
    out: &mut [u8],
    clock: Clock,
    time: u64,
    nothing_after: bool,
    at: usize,
) -> Step
    requires { HasTable table.now × HasMachine machine.old × (1100 ≤ length out.old) }
    ensures { (time < moment_range) × UntilEnd table.now machine.old out.old clock time nothing_after at
        machine.new out.new result }
{
    let present = clock.now;
    let due = clock.due;
    let soon = due_until(due, time);
    let Due::At(m) = soon else {
        let code = end_code(nothing_after);
        return end_with(out, code, present);
    };
    let made = print_instant(table, machine, present, m, &[], &[], 0, out);
    step_after(made, at)
}

// The trace is read from an offset on: the next call, the last line, or "A line out of form when it is reached".
pub fn from_reading(
    trace: &[u8],
    table: &[u32],
    machine: &mut [u32],
    out: &mut [u8],
    clock: Clock,
    at: usize,
) -> Step
    requires { HasTable table.now × HasMachine machine.old × (1100 ≤ length out.old) }
    ensures { FromReading trace.now table.now machine.old out.old clock at machine.new out.new result }
{
    if at > trace.len() {
        return Step {
            phase: Phase::Over,
            printed: 0,
        };
    }
    let present = clock.now;
    let mut numbers = inputs();
    let mut values = inputs();
    let next = next_call(trace, at, &mut numbers, &mut values);
    match next {
        Next::Call(time, count, after) => toward_call(
            table, machine, &numbers, &values, out, clock, time, count, at, after,
        ),
        Next::Last(time, nothing_after) => {
            until_end(table, machine, out, clock, time, nothing_after, at)
        }
        Next::Broken => end_with(out, 2, present),
    }
}
