// The last step of a session, and the figure that a line begins with.
ghost use Rattle.std.specs.Prelude.{◌≡◌, true};
ghost use Rattle.session_replay.specs.Advancing.{long_enough};
ghost use Rattle.session_replay.specs.Ending.{is_over};
ghost use Rattle.session_replay.specs.Phases.{memories};
ghost use Rattle.listing.specs.Expressions.{word_range};
ghost use Rattle.session_trace_lines.specs.Figures.{below_answer};
ghost use Rattle.explain_played.specs.Endings.{LastStep, number_in, leading_figure};

use explain_parts::part_of;
use session_replay::{Advanced, Phase, advance};
use session_trace_lines::figure::{Bounded, MOST_32, figure_up_to};

// The phase from which the last step was made, and how many bytes it printed.
#[derive(Clone, Copy)]
pub struct Last {
    pub phase: Phase,
    pub printed: usize,
}

// Is all printed?
fn is_over(phase: Phase) -> bool
    ensures { result ≡ is_over phase }
{
    match phase {
        Phase::Opening => false,
        Phase::Starting => false,
        Phase::Reading(_, _) => false,
        Phase::Over => true,
    }
}

// The steps to the end.
pub fn last_step(
    listing: &[u8],
    trace: &[u8],
    table: &mut [u32],
    machine: &mut [u32],
    out: &mut [u8],
) -> Last
    requires { long_enough table.old machine.old out.old ≡ true }
    ensures { LastStep listing.now trace.now
        (memories table.old machine.old out.old)
        (memories table.new machine.new out.new) result }
{
    let mut phase = Phase::Opening;
    loop {
        let answer = advance(listing, trace, table, machine, out, phase);
        let Advanced::Went(next, printed) = answer else {
            // never: the memories are long enough
            return Last { phase, printed: 0 };
        };
        if is_over(next) {
            return Last { phase, printed };
        }
        phase = next;
    }
}

// The number of a figure of 32 bits, 0 for none.
fn number_in(piece: &[u8]) -> u32
    ensures { result ≡ number_in (below_answer word_range piece.now) }
{
    let read = figure_up_to(piece, 0, piece.len(), MOST_32);
    match read {
        Bounded::Value(n) => n as u32,
        Bounded::Bad => 0,
    }
}

// The figure behind the first tab, 0 for none: the code of an `X` line, the number of inputs of a listing.
pub fn leading_figure(line: &[u8]) -> u32
    ensures { result ≡ leading_figure line.now }
{
    number_in(part_of(line, b'\t', 1))
}
