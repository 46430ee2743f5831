// Where in its line a reason applies.
ghost use Rattle.std.specs.Prelude.{◌≡◌, ◌+◌, ◌≤◌, length};
ghost use Rattle.session_print.specs.Puts.{Puts};
ghost use Rattle.explain_said.specs.Spots.{piece_text, field_text, numbered_text, spot_text, fault_said};

use crate::reason::{Said, put_reason};
use explain_fields::{Fault, Spot};
use explain_parts::{part_of, put_shown};
use session_print::figure::put_figure;
use test_cases::report::put_text;

// So many bytes of a piece are shown.
const PIECE_SHOWN: usize = 40;

// A piece of a field as it is shown, in parentheses; the place past it.
fn put_piece(out: &mut [u8], at: usize, field: &[u8], piece: usize) -> usize
    requires { at ≤ 50000 }
    ensures { Puts out.old at (piece_text field.now piece) out.new result × (result ≤ at + 200) }
{
    let a = put_text(out, at, b" (");
    let shown = part_of(field, b' ', piece.saturating_sub(1));
    let b = put_shown(out, a, shown, PIECE_SHOWN);
    put_text(out, b, b")")
}

// A piece of a line by the numbers of its field and its own; the place past it.
fn put_numbered(out: &mut [u8], at: usize, line: &[u8], field: usize, piece: usize) -> usize
    requires { at ≤ 40000 }
    ensures { Puts out.old at (numbered_text line.now field piece) out.new result × (result ≤ at + 300) }
{
    let a = put_text(out, at, b", piece ");
    let b = put_figure(out, a, piece as u64);
    let whole = part_of(line, b'\t', field.saturating_sub(1));
    put_piece(out, b, whole, piece)
}

// A field; the place past it.
fn put_field(out: &mut [u8], at: usize, field: usize) -> usize
    requires { at ≤ 40000 }
    ensures { Puts out.old at (field_text field) out.new result × (result ≤ at + 30) }
{
    let a = put_text(out, at, b"field ");
    put_figure(out, a, field as u64)
}

// Where in a line a reason applies; nothing if to all of it; the place past it.
pub fn put_spot(out: &mut [u8], at: usize, line: &[u8], spot: Spot) -> usize
    requires { at ≤ 30000 }
    ensures { Puts out.old at (spot_text line.now spot) out.new result × (result ≤ at + 400) }
{
    match spot {
        Spot::Line => at,
        Spot::Field(field) => {
            let a = put_field(out, at, field);
            put_text(out, a, b": ")
        }
        Spot::Piece(field, piece) => {
            let a = put_field(out, at, field);
            let b = put_numbered(out, a, line, field, piece);
            put_text(out, b, b": ")
        }
    }
}

// The reason with its spot; of a rule that has no reasons of its own that the line does not meet it.
// Of numbers: proofs ByNumber `numbered` says the text.
pub fn put_fault<R: Said>(out: &mut [u8], at: usize, line: &[u8], fault: Option<Fault<R>>) -> usize
    requires { at ≤ 30000 }
    ensures { Puts out.old at (fault_said R.said line.now fault) out.new result × (result ≤ at + 4400) }
{
    match fault {
        Some(fault) => {
            let past = put_spot(out, at, line, fault.spot);
            put_reason(out, past, fault.why)
        }
        None => put_text(out, at, b"the line does not meet the rule below"),
    }
}
