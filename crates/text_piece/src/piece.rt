// Pieces of an expression. Document 01: "the pieces `#v` (a signed 32-bit literal), `n` (a name's value), `@n` .., `+ - * <`."
// Document 02: "Expressions gain `/` and `%`".
ghost use Rattle.std.specs.Prelude.{◌≡◌, ◌&&◌, ◌≤◌, leb, length};
ghost use Rattle.std.proofs.Math.Seq.{slice};
ghost use Rattle.listing.specs.Expressions.{half_range, read_literal};
ghost use Rattle.text_piece.specs.Pieces.{as_piece, piece_answer, effect_in, if_alone, negative, positive};

use crate::figure::{Figure, figure_of};
use listing_effect::Effect;

#[derive(Clone, Copy)]
pub enum Piece {
    Literal(u32),
    Value(u64),
    Mark(u64),
    Plus,
    Minus,
    Times,
    Less,
    Divide,
    Remainder,
    Bad,
}

// What a piece does to the values held.
pub fn effect_of(p: Piece) -> Effect
    ensures { result ≡ effect_in p }
{
    match p {
        Piece::Literal(_) | Piece::Value(_) | Piece::Mark(_) => Effect::Adds,
        Piece::Plus
        | Piece::Minus
        | Piece::Times
        | Piece::Less
        | Piece::Divide
        | Piece::Remainder => Effect::Joins,
        Piece::Bad => Effect::Unknown,
    }
}

// Whether a minus may stand before a figure. Document 01: "never `-0`".
fn may_be_negative(n: u64) -> bool
    ensures { result ≡ (leb 1 n && leb n half_range) }
{
    1 <= n && n <= 2147483648
}

// A literal by its figure, after a minus.
fn negative_literal(figure: Figure) -> Piece
    ensures { result ≡ negative figure }
{
    let Figure::Value(n) = figure else {
        return Piece::Bad;
    };
    if may_be_negative(n) {
        return Piece::Literal((4294967296 - n) as u32);
    }
    Piece::Bad
}

// A literal by its figure, without a minus.
fn positive_literal(figure: Figure) -> Piece
    ensures { result ≡ positive figure }
{
    let Figure::Value(n) = figure else {
        return Piece::Bad;
    };
    if n < 2147483648 {
        return Piece::Literal(n as u32);
    }
    Piece::Bad
}

// A literal, from the byte after its sign #.
fn literal_of(s: &[u8], from: usize, to: usize) -> Piece
    requires { (from ≤ to) × (to ≤ length s.now) }
    ensures { result ≡ as_piece (read_literal (slice from to s.now)) }
{
    if from == to {
        return Piece::Bad;
    }
    if s[from] == b'-' {
        return negative_literal(figure_of(s, from + 1, to));
    }
    positive_literal(figure_of(s, from, to))
}

// The piece if nothing is left of its text.
fn if_alone(from: usize, to: usize, p: Piece) -> Piece
    ensures { result ≡ if_alone from to p }
{
    if from == to {
        return p;
    }
    Piece::Bad
}

// The piece from one offset up to another.
pub fn piece_of(s: &[u8], from: usize, to: usize) -> Piece
    requires { (from ≤ to) × (to ≤ length s.now) }
    ensures { result ≡ piece_answer (slice from to s.now) }
{
    if from == to {
        return Piece::Bad;
    }
    let b = s[from];
    match b {
        b'#' => literal_of(s, from + 1, to),
        b'@' => {
            let Figure::Value(n) = figure_of(s, from + 1, to) else {
                return Piece::Bad;
            };
            Piece::Mark(n)
        }
        b'+' => if_alone(from + 1, to, Piece::Plus),
        b'-' => if_alone(from + 1, to, Piece::Minus),
        b'*' => if_alone(from + 1, to, Piece::Times),
        b'<' => if_alone(from + 1, to, Piece::Less),
        b'/' => if_alone(from + 1, to, Piece::Divide),
        b'%' => if_alone(from + 1, to, Piece::Remainder),
        _ => {
            let Figure::Value(n) = figure_of(s, from, to) else {
                return Piece::Bad;
            };
            Piece::Value(n)
        }
    }
}
