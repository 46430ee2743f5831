// Question 6 of an instruction's cells: expressions, names and child fields.
// `t` is a table's 12,288 words, `names` is the number of the routine's names.
// `calls_past` gives the address behind the cells that it looks at, or none if the answer is no.
#![tactic(auto)]

ghost use Rattle.std.specs.Prelude.{◌≡◌, true, ◌+◌, ◌*◌, ◌≤◌, length};
ghost use Rattle.table.specs.Areas.{TableLong};
ghost use Rattle.table.specs.Decode.{word};
ghost use Rattle.table_check_cells.specs.Pass.{is_named, effect_by, piece_test, held_past, expression_test, names_test, head_test, calls_past};

use listing_effect::{Effect, OUT_OF_FORM, held_after};
use table::{
    ARGUMENTS, CELL_END, CELL_WORDS, LITERAL, ROUTINE_COUNT, ROUTINE_WORDS, ROUTINES, VALUE_OF,
    WRITTEN_MARK,
};
use table_read::{head_at, is_sign, next_head};
use words::number;

// Is it the kind of a name's value or mark?
#[tactic(auto, unfolding(crate::specs::Pass::is_named))]
fn is_named(kind: u32) -> bool
    ensures { result ≡ is_named kind }
{
    matches!(kind, VALUE_OF | WRITTEN_MARK)
}

// What a piece of this kind does to the values held.
#[tactic(auto, using(crate::proofs::Expressions::sign_joins, crate::proofs::Expressions::other_adds))]
fn effect_of(kind: u32) -> Effect
    ensures { result ≡ effect_by kind }
{
    if is_sign(kind) {
        Effect::Joins
    } else {
        Effect::Adds
    }
}

// Is it a piece, its name there, and a sign's value 0?
#[tactic(auto, using(crate::proofs::Expressions::literal_test, crate::proofs::Expressions::named_test, crate::proofs::Expressions::sign_test, crate::proofs::Expressions::none_test))]
fn piece_passes(names: u32, kind: u32, value: u32) -> bool
    ensures { result ≡ piece_test names kind value }
{
    if kind == LITERAL {
        true
    } else if is_named(kind) {
        value < names
    } else {
        is_sign(kind) && value == 0
    }
}

// The number of values held after the piece at `a`.
#[tactic(auto, using(crate::proofs::Expressions::held_by_words))]
fn held_past(t: &[u32], names: u32, held: u8, a: usize) -> u8
    requires { a + 2 ≤ length t.now }
    ensures { result ≡ held_past t.now names held a }
{
    let kind = t[a + 0];
    let value = t[a + 1];
    if piece_passes(names, kind, value) {
        held_after(held, effect_of(kind))
    } else {
        OUT_OF_FORM
    }
}

// Do the `n` pieces from `a` on make an expression?
pub fn expression_passes(t: &[u32], names: u32, a: usize, n: usize) -> bool
    requires { a + 2 * n ≤ length t.now }
    ensures { result ≡ expression_test t.now names 0 a n }
{
    let mut held = 0;
    for i in 0..n {
        held = held_past(t, names, held, a + CELL_WORDS * i);
        if held == OUT_OF_FORM {
            return false;
        }
    }
    held == 1
}

// Are the `n` cells from `a` on names of the routine?
pub fn names_pass(t: &[u32], names: u32, a: usize, n: usize) -> bool
    requires { a + 2 * n ≤ length t.now }
    ensures { result ≡ names_test t.now names a n }
{
    for i in 0..n {
        let at = a + CELL_WORDS * i;
        if t[at] != 0 || t[at + 1] >= names {
            return false;
        }
    }
    true
}

// Does the child field's head at `a` name a routine that is there, with as many arguments as it takes?
#[tactic(auto, unfolding(crate::specs::Pass::head_test))]
fn head_passes(t: &[u32], a: usize) -> bool
    requires { TableLong t.now × (a + 2 ≤ 12288) × (word t.now 2 ≤ 64) }
    ensures { result ≡ head_test t.now a }
{
    let head = head_at(t, a);
    head.callee < number(t[ROUTINE_COUNT])
        && head.arguments == number(t[ROUTINES + ROUTINE_WORDS * head.callee + ARGUMENTS])
}

// Behind `n` child fields.
pub fn calls_past(t: &[u32], names: u32, cells: usize, n: u32) -> Option<usize>
    requires { TableLong t.now × (cells ≤ 11080) × (word t.now 2 ≤ 64) }
    ensures { result ≡ calls_past t.now names cells n }
{
    let mut a = cells;
    for _ in 0..n {
        let count = head_at(t, a).arguments;
        let stop = next_head(t, a);
        if !head_passes(t, a) {
            return None;
        }
        if stop > CELL_END {
            return None;
        }
        if !names_pass(t, names, a + CELL_WORDS, count) {
            return None;
        }
        a = stop;
    }
    Some(a)
}
