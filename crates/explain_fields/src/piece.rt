// Why the bytes of a piece are out of form.
ghost use Rattle.std.specs.Prelude.{◌≡◌};
ghost use Rattle.listing.specs.Form.{read_kind, read_kinds};
ghost use Rattle.listing.specs.Lists.{is_some};
ghost use Rattle.explain_fields.specs.Pieces.{strange_byte, strange_in, strange_field, why_bad, figure_why, kinds_why, weighed};
ghost use Rattle.listing.specs.Expressions.{read_piece};

use crate::reasons::{Reason, Strange};
use explain_parts::part_end;
use listing_effect::Effect;
use text_piece::{Figure, effect_of, figure_of, piece_of};

// The values that an expression may hold.
const MOST_HELD: u8 = 8;

// The first byte that is not ASCII, from 0.
const ASCII: u8 = 128;

// What is strange in a byte.
fn strange_byte(b: u8) -> Option<Strange>
    ensures { result ≡ strange_byte b }
{
    if b == b'\r' {
        return Some(Strange::CarriageReturn);
    }
    if b >= ASCII {
        return Some(Strange::NotAscii);
    }
    None
}

// What is strange in the bytes of a piece: that nothing is there, or the first byte that is strange.
pub fn strange_in(piece: &[u8]) -> Option<Strange>
    ensures { result ≡ strange_in piece.now }
{
    if piece.len() == 0 {
        return Some(Strange::Nothing);
    }
    for b in piece {
        if let Some(strange) = strange_byte(*b) {
            return Some(strange);
        }
    }
    None
}

// What is strange in a field that is one piece: spaces in it, or its bytes.
pub fn strange_field(field: &[u8]) -> Option<Strange>
    ensures { result ≡ strange_field field.now }
{
    if part_end(field, b' ', 0) < field.len() {
        return Some(Strange::SpacesForTabs);
    }
    strange_in(field)
}

// Why a piece is out of form: something is strange, or otherwise.
pub fn why_bad(piece: &[u8], otherwise: Reason) -> Reason
    ensures { result ≡ why_bad otherwise piece.now }
{
    match strange_in(piece) {
        Some(strange) => Reason::Strange(strange),
        None => otherwise,
    }
}

// Why a piece is no figure.
pub fn figure_why(piece: &[u8]) -> Option<Reason>
    ensures { result ≡ figure_why piece.now }
{
    let f = figure_of(piece, 0, piece.len());
    match f {
        Figure::Value(_) => None,
        Figure::Bad => Some(why_bad(piece, Reason::BadFigure)),
    }
}

fn is_kind(b: u8) -> bool
    ensures { result ≡ is_some (read_kind b) }
{
    b == b'r' || b == b'v'
}

// Whether a piece is a row of kinds, or a dash alone.
fn is_kinds(piece: &[u8]) -> bool
    ensures { result ≡ is_some (read_kinds piece.now) }
{
    if piece.len() == 0 {
        return false;
    }
    if piece[0] == b'-' {
        return piece.len() == 1;
    }
    piece.iter().all(|b| is_kind(*b))
}

// Why a piece is no row of kinds.
pub fn kinds_why(piece: &[u8]) -> Option<Reason>
    ensures { result ≡ kinds_why piece.now }
{
    if is_kinds(piece) {
        return None;
    }
    Some(why_bad(piece, Reason::BadKinds))
}

// How many values an expression holds after a piece that comes when it holds so many; or why the piece may not come.
pub fn weigh(held: u8, piece: &[u8]) -> Result<u8, Reason>
    ensures { result ≡ weighed held (read_piece piece.now) piece.now }
{
    let effect = effect_of(piece_of(piece, 0, piece.len()));
    match effect {
        Effect::Adds => {
            if held < MOST_HELD {
                return Ok(held + 1);
            }
            Err(Reason::NinthValue)
        }
        Effect::Joins => {
            if held < 2 {
                return Err(Reason::LacksOperand);
            }
            Ok(held - 1)
        }
        Effect::Unknown => Err(why_bad(piece, Reason::BadPiece)),
    }
}
