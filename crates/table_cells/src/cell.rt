// The cells of a field: for each piece its kind and its value. The pieces of documents 01 and 02; a name in a row of names has kind `plain`.
ghost use Rattle.std.specs.Prelude.{◌≡◌, ◌+◌, ◌*◌, ◌≤◌, length, set};
ghost use Rattle.text_place.specs.Texts.{Within};
ghost use Rattle.table_cells.specs.Cells.{low_word, cell_kind, cell_value, WritesCells};

use crate::put::put;
use table::{CELL_WORDS, DIVIDE, LESS, LITERAL, MINUS, PLUS, REMAINDER, TIMES, WRITTEN_MARK};
use text_fields::Read;
use text_piece::{Piece, piece_of};
use text_place::{Place, take_piece};

pub fn low_word(n: u64) -> u32
    ensures { result ≡ low_word n }
{
    u32::try_from(n).unwrap_or(0)
}

fn cell_kind(p: Piece, plain: u32) -> u32
    ensures { result ≡ cell_kind p plain }
{
    match p {
        Piece::Literal(_) => LITERAL,
        Piece::Value(_) => plain,
        Piece::Mark(_) => WRITTEN_MARK,
        Piece::Plus => PLUS,
        Piece::Minus => MINUS,
        Piece::Times => TIMES,
        Piece::Less => LESS,
        Piece::Divide => DIVIDE,
        Piece::Remainder => REMAINDER,
        Piece::Bad => 0,
    }
}

fn cell_value(p: Piece) -> u32
    ensures { result ≡ cell_value p }
{
    match p {
        Piece::Literal(v) => v,
        Piece::Value(n) | Piece::Mark(n) => low_word(n),
        _ => 0,
    }
}

// A piece's cell at an address.
fn write_cell(t: &mut [u32], a: usize, p: Piece, plain: u32)
    requires { a ≤ 1000000 }
    ensures { t.new ≡ set (set t.old a (cell_kind p plain)) (a + 1) (cell_value p) }
{
    put(t, a, cell_kind(p, plain));
    put(t, a + 1, cell_value(p));
}

// The cells of the field at a place, from an address on: how many.
pub fn write_cells(s: &[u8], t: &mut [u32], place: Place, a: usize, plain: u32) -> Read<usize>
    requires { Within s.now place.offset place.line × (length s.now ≤ 49152) × (a ≤ 800000) }
    ensures { WritesCells s.now place a plain t.old t.new result }
{
    let mut at = place.offset;
    let line = place.line;
    let mut count: usize = 0;
    loop {
        let piece = take_piece(s, Place { offset: at, line });
        let from = piece.from;
        let to = piece.to;
        let p = piece_of(s, from, to);
        write_cell(t, a + CELL_WORDS * count, p, plain);
        count += 1;
        let b = piece.stop;
        let next = piece.next;
        if b != b' ' {
            return Read {
                value: count,
                stop: b,
                next,
            };
        }
        at = next.offset;
    }
}
