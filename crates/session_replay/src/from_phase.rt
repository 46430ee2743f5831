// The first steps of a session: loading and the start; and the `X` line.
ghost use Rattle.std.specs.Prelude.{◌≡◌, ◌≤◌, length};
ghost use Rattle.table.specs.Areas.{HasTable};
ghost use Rattle.machine.specs.Words.{HasMachine};
ghost use Rattle.session_replay.specs.After.{EndsWith};
ghost use Rattle.session_replay.specs.Phases.{FromOpening, FromStarting};

use crate::after::step_after;
use crate::phase::{Phase, Step};
use call_load::load;
use session_print::put_end_line;
use session_printed::calls::print_start;
use text_questions::Loaded;

// "listing 49,152 bytes"
const BYTES: usize = 49152;

// The `X` line, and all is printed.
pub fn end_with(out: &mut [u8], code: u32, present: u64) -> Step
    requires { 1100 ≤ length out.old }
    ensures { EndsWith out.old code present out.new result }
{
    let printed = put_end_line(out, 0, code, present);
    Step {
        phase: Phase::Over,
        printed,
    }
}

// "Before loading, a listing over 49,152 bytes has code 3, else a trace over 49,152 code 2."
pub fn from_opening(listing: &[u8], trace: &[u8], table: &mut [u32], out: &mut [u8]) -> Step
    requires { HasTable table.old × (1100 ≤ length out.old) }
    ensures { FromOpening listing.now trace.now table.old out.old table.new out.new result }
{
    if listing.len() > BYTES {
        return end_with(out, 3, 0);
    }
    if trace.len() > BYTES {
        return end_with(out, 2, 0);
    }
    let answer = load(listing, table);
    match answer {
        Loaded::Refused(number, _) => end_with(out, number, 0),
        Loaded::Done => Step {
            phase: Phase::Starting,
            printed: 0,
        },
    }
}

// The start, "allowance 10,000".
pub fn from_starting(table: &[u32], machine: &mut [u32], out: &mut [u8]) -> Step
    requires { HasTable table.now × HasMachine machine.old × (1100 ≤ length out.old) }
    ensures { FromStarting table.now machine.old out.old machine.new out.new result }
{
    let made = print_start(table, machine, out);
    step_after(made, 0)
}
