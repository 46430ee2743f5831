// A line of the trace, from its letter to the line feed.
ghost use Rattle.std.specs.Prelude.{◌≡◌};
ghost use Rattle.walk.specs.Trace.{read_input_line, read_last_line};
ghost use Rattle.text_place.specs.Texts.{Within};
ghost use Rattle.session_trace_lines.specs.Lines.{rest_answer, line_answer};

use crate::field::{figure_field, one_piece, value_field};
use crate::figure::{MOST_32, MOST_64};
use text_place::Place;

// What a line says, the byte that closes it, 0 at the end of the text, and the place past it.
#[derive(Clone, Copy)]
pub enum TraceLine {
    // a time, an input's number and its value
    Input(u64, u32, u32, u8, Place),
    // a time
    Last(u64, u8, Place),
    // out of form
    Bad,
}

fn read_input(s: &[u8], place: Place, stop: u8) -> TraceLine
    requires { Within s.now place.offset place.line }
    ensures { result ≡ rest_answer s.now place stop read_input_line }
{
    let Some(time) = figure_field(s, place, stop, MOST_64) else {
        return TraceLine::Bad;
    };
    let Some(input) = figure_field(s, time.next, time.stop, MOST_32) else {
        return TraceLine::Bad;
    };
    let Some(value) = value_field(s, input.next, input.stop) else {
        return TraceLine::Bad;
    };
    if value.stop == b'\t' {
        return TraceLine::Bad;
    }
    TraceLine::Input(
        time.number,
        input.number as u32,
        value.number as u32,
        value.stop,
        value.next,
    )
}

fn read_last(s: &[u8], place: Place, stop: u8) -> TraceLine
    requires { Within s.now place.offset place.line }
    ensures { result ≡ rest_answer s.now place stop read_last_line }
{
    let Some(time) = figure_field(s, place, stop, MOST_64) else {
        return TraceLine::Bad;
    };
    if time.stop == b'\t' {
        return TraceLine::Bad;
    }
    TraceLine::Last(time.number, time.stop, time.next)
}

// The line at a place.
pub fn read_trace_line(s: &[u8], place: Place) -> TraceLine
    requires { Within s.now place.offset place.line }
    ensures { result ≡ line_answer s.now place }
{
    let Some(piece) = one_piece(s, place, b'\t') else {
        return TraceLine::Bad;
    };
    if piece.to - piece.from != 1 {
        return TraceLine::Bad;
    }
    let letter = s[piece.from];
    if letter == b'I' {
        return read_input(s, piece.next, piece.stop);
    }
    if letter == b'Q' {
        return read_last(s, piece.next, piece.stop);
    }
    TraceLine::Bad
}
