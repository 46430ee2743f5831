// How the session of a listing and a trace ends.
ghost use Rattle.std.specs.Prelude.{◌≡◌, ◌≤◌, length};
ghost use Rattle.walk.specs.Calls.{memory_words};
ghost use Rattle.explain_played.specs.Endings.{Ends};

use crate::last::{last_step, leading_figure};
use crate::spot::spot_of;
use table::TABLE_WORDS;

// The code; the line of the trace, from 1, that was played, and the instant that was made last or refused.
#[derive(Clone, Copy)]
pub struct Ended {
    pub code: u32,
    pub line: usize,
    pub moment: u64,
}

// A table or a machine: both have as many words.
fn memory() -> [u32; TABLE_WORDS]
    ensures { memory_words ≡ length result }
{
    [0; TABLE_WORDS]
}

// What one step prints.
fn piece() -> [u8; 1100]
    ensures { 1100 ≡ length result }
{
    [0; 1100]
}

// The session on memories of its own.
pub fn how_it_ends(listing: &[u8], trace: &[u8]) -> Ended
    requires { length trace.now ≤ 100000 }
    ensures { Ends listing.now trace.now result }
{
    let mut table = memory();
    let mut machine = memory();
    let mut out = piece();
    let last = last_step(listing, trace, &mut table, &mut machine, &mut out);
    let printed = last.printed;
    let phase = last.phase;
    let spot = spot_of(trace, phase);
    Ended {
        code: leading_figure(&out[..printed]),
        line: spot.line,
        moment: spot.moment,
    }
}
