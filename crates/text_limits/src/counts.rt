// What the lines so far hold, against the limits. Document 01: "listing 49,152 bytes; 64 routines; 512 instructions in all;
// 16 names a routine; 4,096 pieces after the letters of instruction lines."
ghost use Rattle.std.specs.Prelude.{◌≡◌};
ghost use Rattle.text_limits.specs.Counting.{WithinLimits, count_opens, count_instruction, count_line};

use listing::{MOST_BYTES, MOST_INSTRUCTIONS, MOST_NAMES, MOST_PIECES, MOST_ROUTINES};
use text_jumps::Record;

#[derive(Clone, Copy)]
pub struct Counts {
    pub routines: u64,
    pub instructions: u64,
    pub pieces: u64,
}

// The counts with a routine more, unless it passes a limit.
fn count_opens(held: Counts, arguments: u64, locals: u64) -> Option<Counts>
    requires { WithinLimits held }
    ensures { result ≡ count_opens held arguments locals }
{
    if MOST_ROUTINES <= held.routines {
        return None;
    }
    if MOST_NAMES < arguments {
        return None;
    }
    if MOST_NAMES - arguments < locals {
        return None;
    }
    Some(Counts {
        routines: held.routines + 1,
        ..held
    })
}

// The counts with an instruction more, unless it passes a limit.
fn count_instruction(held: Counts, pieces: u64) -> Option<Counts>
    requires { WithinLimits held }
    ensures { result ≡ count_instruction held pieces }
{
    if MOST_INSTRUCTIONS <= held.instructions {
        return None;
    }
    if MOST_PIECES - held.pieces < pieces {
        return None;
    }
    Some(Counts {
        instructions: held.instructions + 1,
        pieces: held.pieces + pieces,
        ..held
    })
}

// The counts with one line more, after which so many bytes are read, unless it passes a limit.
pub fn count_line(held: Counts, r: Record, bytes: usize) -> Option<Counts>
    requires { WithinLimits held }
    ensures { result ≡ count_line held r bytes }
{
    if MOST_BYTES < bytes {
        return None;
    }
    match r {
        Record::Ports(_, _) => Some(held),
        Record::Opens(arguments, locals, _) => count_opens(held, arguments, locals),
        Record::Instruction(pieces, _, _) => count_instruction(held, pieces),
    }
}
