// The reading place moved past a piece. Document 01: "moved past each piece and counting lines".
// The place is lent by `&mut` to two thin functions, each over a function on the slice; callers use `place_past`, with the place by value.
ghost use Rattle.std.specs.Prelude.{◌≡◌, ◌+◌, ◌≤◌, length};
ghost use Rattle.text_place.specs.Texts.{piece_end, Within};
ghost use Rattle.text_place.specs.Places.{passed};
ghost use Rattle.text_place.specs.Past.{offset_past, closing_byte, line_past, moved_past, counted_past};

use crate::place::{Place, ends_piece, piece_end};

// The offset past the piece at `at` and the byte that closes it, if there is one.
fn offset_past(s: &[u8], at: usize) -> usize
    requires { at ≤ length s.now }
    ensures { result ≡ offset_past s.now at }
{
    let end = piece_end(s, at);
    if end < s.len() {
        return end + 1;
    }
    end
}

// The byte that closes what lies from one offset up to another, 0 if none does.
pub fn closing_byte(s: &[u8], from: usize, past: usize) -> u8
    requires { past ≤ length s.now }
    ensures { result ≡ closing_byte s.now from past }
{
    if from < past {
        let b = s[past - 1];
        if ends_piece(b) {
            return b;
        }
    }
    0
}

// The line past what lies from one offset up to another: the next one past a line feed.
fn line_past(s: &[u8], from: usize, past: usize, line: usize) -> usize
    requires { (past ≤ length s.now) × (line ≤ from + 1) }
    ensures { result ≡ line_past s.now from past line }
{
    if closing_byte(s, from, past) == b'\n' {
        return line + 1;
    }
    line
}

// The place's offset is moved past the piece at it and the byte that closes the piece.
pub fn move_past(place: &mut Place, s: &[u8])
    requires { place.old.offset ≤ length s.now }
    ensures { place.new ≡ moved_past s.now place.old }
{
    let at = place.offset;
    place.offset = offset_past(s, at);
}

// The place's line counts the line feed, if one closes the piece passed, which began at `from`.
pub fn count_line(place: &mut Place, s: &[u8], from: usize)
    requires { (place.old.offset ≤ length s.now) × (place.old.line ≤ from + 1) }
    ensures { place.new ≡ counted_past s.now from place.old }
{
    let past = place.offset;
    let line = place.line;
    place.line = line_past(s, from, past, line);
}

// The place past the piece at it and the byte that closes the piece.
pub fn place_past(s: &[u8], place: Place) -> Place
    requires { Within s.now place.offset place.line }
    ensures { result ≡ passed s.now place.line (piece_end s.now place.offset) }
{
    let from = place.offset;
    let mut p = place;
    move_past(&mut p, s);
    count_line(&mut p, s, from);
    p
}
