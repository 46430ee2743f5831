// The reading place. Document 01: "The loader has a reading place in the listing, moved past each piece and counting lines."
ghost use Rattle.std.specs.Prelude.{◌≡◌, ◌+◌, ◌≤◌, length, drop};
ghost use Rattle.text_place.specs.Texts.{first_piece_lem, ends_piece, Within};
ghost use Rattle.text_place.specs.Places.{taken_at};

use crate::past::{closing_byte, place_past};

// The offset of the next byte, and the number of its line, from 1.
#[derive(Clone, Copy)]
pub struct Place {
    pub offset: usize,
    pub line: usize,
}

// A piece, from one offset up to another; the byte that closes it, 0 at the end of the text; and the place past both.
#[derive(Clone, Copy)]
pub struct Taken {
    pub from: usize,
    pub to: usize,
    pub stop: u8,
    pub next: Place,
}

// Whether a byte closes a piece: a tab, a line feed or a space.
pub fn ends_piece(b: u8) -> bool
    ensures { result ≡ ends_piece b }
{
    matches!(b, b'\t' | b'\n' | b' ')
}

// Where the piece at an offset ends.
pub fn piece_end(s: &[u8], at: usize) -> usize
    requires { at ≤ length s.now }
    ensures { result ≡ at + length (first_piece_lem (drop at s.now)) }
{
    for i in at..s.len() {
        if ends_piece(s[i]) {
            return i;
        }
    }
    s.len()
}

// The piece at a place.
pub fn take_piece(s: &[u8], place: Place) -> Taken
    requires { Within s.now place.offset place.line }
    ensures { result ≡ taken_at s.now place }
{
    let from = place.offset;
    let next = place_past(s, place);
    let past = next.offset;
    let stop = closing_byte(s, from, past);
    if stop == 0 {
        return Taken {
            from,
            to: past,
            stop: 0,
            next,
        };
    }
    Taken {
        from,
        to: past - 1,
        stop,
        next,
    }
}
