// Where in a trace a session stands, and the instant that it makes next.
ghost use Rattle.std.specs.Prelude.{◌≡◌, ◌≤◌, length};
ghost use Rattle.call_conclude.specs.Answers.{due_of};
ghost use Rattle.explain_played.specs.Spots.{time_at, soonest, spot_at, spot_of};

use call_engine::Due;
use explain_parts::count_parts;
use session_calls::Clock;
use session_replay::Phase;
use session_trace_lines::{TraceLine, read_trace_line};
use text_place::Place;

// A line of the trace, from 1, and a moment.
#[derive(Clone, Copy)]
pub struct Spot {
    pub line: usize,
    pub moment: u64,
}

// The time of the line at an offset; 0 if it is out of form.
fn time_at(trace: &[u8], at: usize) -> u64
    requires { at ≤ length trace.now }
    ensures { result ≡ time_at trace.now at }
{
    let read = read_trace_line(
        trace,
        Place {
            offset: at,
            line: 0,
        },
    );
    match read {
        TraceLine::Input(time, _, _, _, _) => time,
        TraceLine::Last(time, _, _) => time,
        TraceLine::Bad => 0,
    }
}

// A time, or what is due before it.
fn soonest(due: Due, time: u64) -> u64
    ensures { result ≡ soonest (due_of due) time }
{
    match due {
        Due::Never => time,
        Due::At(m) => {
            if m < time {
                return m;
            }
            time
        }
    }
}

// From an offset on, with what is due.
fn spot_at(trace: &[u8], due: Due, at: usize) -> Spot
    requires { length trace.now ≤ 100000 }
    ensures { result ≡ spot_at trace.now (due_of due) at }
{
    if at > trace.len() {
        return Spot { line: 1, moment: 0 };
    }
    Spot {
        line: count_parts(&trace[..at], b'\n'),
        moment: soonest(due, time_at(trace, at)),
    }
}

// From a phase on.
pub fn spot_of(trace: &[u8], phase: Phase) -> Spot
    requires { length trace.now ≤ 100000 }
    ensures { result ≡ spot_of trace.now phase }
{
    match phase {
        Phase::Opening => Spot { line: 1, moment: 0 },
        Phase::Starting => Spot { line: 1, moment: 0 },
        Phase::Reading(clock, at) => {
            let due = clock.due;
            spot_at(trace, due, at)
        }
        Phase::Over => Spot { line: 1, moment: 0 },
    }
}
