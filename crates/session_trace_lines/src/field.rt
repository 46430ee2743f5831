// Fields of one piece, each read from the place past the tab before it.
ghost use Rattle.std.specs.Prelude.{◌≡◌, ◌+◌};
ghost use Rattle.walk.specs.Trace.{read_below, read_signed};
ghost use Rattle.text_place.specs.Texts.{Within};
ghost use Rattle.session_trace_lines.specs.Fields.{piece_answer, figure_answer};

use crate::figure::{Bounded, figure_up_to, value_of};
use text_place::{Place, Taken, take_piece};

// A field's number, the byte that closes the field, and the place past it.
#[derive(Clone, Copy)]
pub struct Figure {
    pub number: u64,
    pub stop: u8,
    pub next: Place,
}

// The next field's one piece, if the byte before it was a tab and no space closes the piece.
pub fn one_piece(s: &[u8], place: Place, stop: u8) -> Option<Taken>
    requires { Within s.now place.offset place.line }
    ensures { result ≡ piece_answer s.now place stop }
{
    if stop != b'\t' {
        return None;
    }
    let taken = take_piece(s, place);
    if taken.stop == b' ' {
        return None;
    }
    Some(taken)
}

// The next field: a number up to `most`.
pub fn figure_field(s: &[u8], place: Place, stop: u8, most: u64) -> Option<Figure>
    requires { Within s.now place.offset place.line }
    ensures { result ≡ figure_answer (read_below (most + 1)) s.now place stop }
{
    let piece = one_piece(s, place, stop)?;
    let Bounded::Value(number) = figure_up_to(s, piece.from, piece.to, most) else {
        return None;
    };
    Some(Figure {
        number,
        stop: piece.stop,
        next: piece.next,
    })
}

// The next field: a value, as its word.
pub fn value_field(s: &[u8], place: Place, stop: u8) -> Option<Figure>
    requires { Within s.now place.offset place.line }
    ensures { result ≡ figure_answer read_signed s.now place stop }
{
    let piece = one_piece(s, place, stop)?;
    let Bounded::Value(number) = value_of(s, piece.from, piece.to) else {
        return None;
    };
    Some(Figure {
        number,
        stop: piece.stop,
        next: piece.next,
    })
}
