// An expression's pieces, one after the other. `t` is the table, `m` the machine's memory, `me` the running routine's slot.
ghost use Rattle.std.specs.Prelude.{false, ◌≡◌, ◌≤◌, ◌<◌, length};
ghost use Rattle.machine.specs.Words.{HasMachine};
ghost use Rattle.words.specs.Words.{bit};
ghost use Rattle.table.specs.Decode.{word, is_sign, pieces_at};
ghost use Rattle.engine_evaluate.specs.Bound.{bindings_of, FromNames};
ghost use Rattle.engine_values.specs.Values.{found, given};
ghost use Rattle.engine_evaluate.specs.Evaluable.{Evaluable, PieceStands, MayCome, Adds, Past, Evaluates};

use engine_values::{Held, NO_VALUE, operate, push, sign};
use engine_variables::{Binding, owner, value, written};
use table::{CELL_WORDS, LITERAL, VALUE_OF, WRITTEN_MARK};
use table_read::is_sign;

// "`n` (a name's value)"
pub fn value_of(m: &[u32], me: usize, name: usize) -> u32
    requires { HasMachine m.now × (me < 64) × (name < length (bindings_of m.now me)) }
    ensures { FromNames m.now me (λ names. (names name).value) result }
{
    let Binding { block, index } = owner(m, me, name);
    value(m, block, index)
}

// "`@n` (1 if it was written in this instant, else 0)"
fn mark_of(m: &[u32], me: usize, name: usize) -> u32
    requires { HasMachine m.now × (me < 64) × (name < length (bindings_of m.now me)) }
    ensures { FromNames m.now me (λ names. bit (names name).written) result }
{
    let Binding { block, index } = owner(m, me, name);
    u32::from(written(m, block, index))
}

// The value that the piece in the cell at `at` adds, if it is no sign.
fn operand(t: &[u32], m: &[u32], me: usize, at: usize) -> u32
    requires { PieceStands t.now m.now me at × (is_sign (word t.now at) ≡ false) }
    ensures { Adds t.now m.now me at result }
{
    let v = t[at + 1];
    match t[at] {
        LITERAL => v,
        VALUE_OF => value_of(m, me, v as usize),
        WRITTEN_MARK => mark_of(m, me, v as usize),
        _ => 0,
    }
}

// What the piece in the cell at `at` makes of the values held, if anything is held then. (Signs are told from the others first: one match over all
// kinds is slower.)
fn piece(
    t: &[u32],
    m: &[u32],
    me: usize,
    at: usize,
    values: &mut [u32; 8],
    held: Held,
) -> Option<Held>
    requires { MayCome t.now m.now me at values.old held.count }
    ensures { Past t.now m.now me at values.old held values.new result }
{
    let kind = t[at];
    if is_sign(kind) {
        return operate(values, held, kind);
    }
    let v = operand(t, m, me, at);
    Some(push(values, held, v))
}

// The value of an expression of any number of pieces, piece by piece.
fn each_piece(t: &[u32], m: &[u32], me: usize, cells: usize, pieces: usize) -> Option<u32>
    requires { Evaluable t.now m.now me cells pieces }
    ensures { Evaluates m.now me (pieces_at t.now cells pieces) (found result) }
{
    let mut values: [u32; 8] = [0; 8];
    let mut held = Held { count: 0, top: 0 };
    for k in 0..pieces {
        held = piece(t, m, me, cells + CELL_WORDS * k, &mut values, held)?;
    }
    Some(held.top)
}

// The value of an expression of three pieces: two that add a value, and a sign.
fn joined(t: &[u32], m: &[u32], me: usize, cells: usize) -> Option<u32>
    requires { Evaluable t.now m.now me cells 3 }
    ensures { Evaluates m.now me (pieces_at t.now cells 3) (found result) }
{
    let left = operand(t, m, me, cells);
    let right = operand(t, m, me, cells + CELL_WORDS);
    sign(t[cells + 2 * CELL_WORDS], left, right)
}

// The value of the `pieces` pieces whose cells stand from word `cells` of the table on, unless a divisor met is 0.
// (One piece and three are most of what listings have, and need no stack.)
fn found_value(t: &[u32], m: &[u32], me: usize, cells: usize, pieces: usize) -> Option<u32>
    requires { Evaluable t.now m.now me cells pieces }
    ensures { Evaluates m.now me (pieces_at t.now cells pieces) (found result) }
{
    if pieces == 1 {
        return Some(operand(t, m, me, cells));
    }
    if pieces == 3 {
        return joined(t, m, me, cells);
    }
    each_piece(t, m, me, cells, pieces)
}

// The same, or `NO_VALUE` if a divisor met is 0.
pub fn evaluate(t: &[u32], m: &[u32], me: usize, cells: usize, pieces: usize) -> u64
    requires { Evaluable t.now m.now me cells pieces }
    ensures { Evaluates m.now me (pieces_at t.now cells pieces) (given result) × (result ≤ 4294967296) }
{
    match found_value(t, m, me, cells, pieces) {
        Some(v) => u64::from(v),
        None => NO_VALUE,
    }
}
