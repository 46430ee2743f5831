// What the line that opens a listing and the line that opens a routine hold. They write nothing.
ghost use Rattle.std.specs.Prelude.{◌≡◌, ◌+◌, ◌≤◌, length};
ghost use Rattle.std.proofs.Math.Seq.{slice};
ghost use Rattle.listing.specs.Form.{read_ports, read_opens};
ghost use Rattle.text_place.specs.Texts.{Within};
ghost use Rattle.text_jumps.specs.Records.{end_next};
ghost use Rattle.table_lines.specs.Kinds.{kind_bit, bits_of, FewKinds, kinds_answer};
ghost use Rattle.table_lines.specs.Lines.{Good, held_for, rest_at};

use crate::line::{Holds, WrittenLine};
use table_cells::word::word_field;
use text_place::{Place, take_piece};

// How many kinds, and one bit for each.
#[derive(Clone, Copy)]
pub struct Kinds {
    pub count: u32,
    pub bits: u32,
}

fn kind_bit(b: u8) -> u32
    ensures { (result ≡ kind_bit b) × (result ≤ 1) }
{
    u32::from(b == b'r')
}

// The bits of at most 16 letters, the last letter first.
fn kind_bits(s: &[u8], from: usize, to: usize) -> u32
    requires { (from ≤ to) × (to ≤ length s.now) × (to ≤ from + 16) }
    ensures { result ≡ bits_of (slice from to s.now) }
{
    let mut bits: u32 = 0;
    for i in (from..to).rev() {
        bits = 2 * bits + kind_bit(s[i]);
    }
    bits
}

// The kinds from one offset up to another. Document 01: "a letter per argument, `r` by reference or `v` by value, or is `-` for none".
fn kinds_of(s: &[u8], from: usize, to: usize) -> Kinds
    requires { (from ≤ to) × (to ≤ length s.now) × FewKinds (slice from to s.now) }
    ensures { result ≡ kinds_answer (slice from to s.now) }
{
    if s[from] == b'-' {
        return Kinds { count: 0, bits: 0 };
    }
    Kinds {
        count: (to - from) as u32,
        bits: kind_bits(s, from, to),
    }
}

// "`P|i|o` gives i inputs and o outputs."
pub fn hold_ports(s: &[u8], place: Place, stop: u8) -> WrittenLine
    requires { Within s.now place.offset place.line × Good (rest_at read_ports s.now place stop) }
    ensures { result ≡ held_for (rest_at read_ports s.now place stop) (end_next s.now place stop) }
{
    let inputs = word_field(s, place, stop);
    let after = inputs.next;
    let outputs = word_field(s, after, inputs.stop);
    let end = outputs.next;
    WrittenLine {
        holds: Holds::Ports(inputs.value, outputs.value),
        next: end,
    }
}

// "`R|kinds|locals` opens one"
pub fn hold_opens(s: &[u8], place: Place, stop: u8) -> WrittenLine
    requires { Within s.now place.offset place.line × Good (rest_at read_opens s.now place stop) }
    ensures { result ≡ held_for (rest_at read_opens s.now place stop) (end_next s.now place stop) }
{
    let piece = take_piece(s, place);
    let from = piece.from;
    let to = piece.to;
    let after = piece.next;
    let kinds = kinds_of(s, from, to);
    let locals = word_field(s, after, piece.stop);
    let end = locals.next;
    WrittenLine {
        holds: Holds::Opens(kinds.count, kinds.bits, locals.value),
        next: end,
    }
}
