// Reading a table: the number of environment variables, an instruction by its routine and place, a routine's entry, a child field's head, a name, a sign.
// `t` is a table's 12,288 words.
#![tactic(auto)]

ghost use Rattle.std.specs.Prelude.{◌≡◌, true, ℕ, ◌+◌, ◌<◌, ◌≤◌, length};
ghost use Rattle.table.specs.Areas.{TableLong};
ghost use Rattle.table.specs.Decode.{word, is_sign, name_at, after_call, head_after};
ghost use Rattle.table.specs.Question6.{is_table};
ghost use Rattle.table_read.specs.Opened.{Opened, HasEntry, code_at, entry_of, entry_at, opening_at};

use table::{
    ARGUMENTS, CELLS_AT, ENTRIES, ENTRY_WORDS, FIRST_COUNT, FIRST_ENTRY, INPUTS, KIND, KIND_BITS,
    LOCALS, OPERAND, OUTPUTS, PLUS, REMAINDER, ROUTINE_WORDS, ROUTINES, SECOND_COUNT, SIZE,
};
use words::number;

// The number of environment variables: the inputs and the outputs.
pub fn environment_size(t: &[u32]) -> usize
    requires { 2 ≤ length t.now }
    ensures { result ≡ word t.now 0 + word t.now 1 }
{
    number(t[INPUTS]) + number(t[OUTPUTS])
}

// An instruction's entry: its kind (1 `S`, 2 `A`, 3 `U`, 4 `G`, 5 `W`, 6 `F`, 7 `E`), the name or the jump, the word address of its cells, two counts.
#[derive(Clone, Copy, Debug, PartialEq, Eq)]
pub struct Entry {
    pub kind: u32,
    pub operand: usize,
    pub cells: usize,
    pub first: usize,
    pub second: usize,
}

// Where routine r's first instruction has its entry.
pub fn code_at(t: &[u32], r: usize) -> usize
    requires { TableLong t.now × (r < 64) }
    ensures { result ≡ code_at t.now r }
{
    let a = ROUTINES + ROUTINE_WORDS * r;
    ENTRIES + ENTRY_WORDS * number(t[a + FIRST_ENTRY])
}

// Instruction `place` of routine `r`.
pub fn fetch(t: &[u32], r: usize, place: usize) -> Entry
    requires { TableLong t.now × HasEntry t.now r place }
    ensures { result ≡ entry_at t.now r place }
{
    entry_at(t, code_at(t, r) + ENTRY_WORDS * place)
}

// The instruction whose entry stands at `e`.
pub fn entry_at(t: &[u32], e: usize) -> Entry
    requires { TableLong t.now × (e + 5 ≤ 12288) }
    ensures { result ≡ entry_of t.now e }
{
    let kind = t[e + KIND];
    let operand = number(t[e + OPERAND]);
    let cells = number(t[e + CELLS_AT]);
    let first = number(t[e + FIRST_COUNT]);
    let second = number(t[e + SECOND_COUNT]);
    Entry {
        kind,
        operand,
        cells,
        first,
        second,
    }
}

// A routine's entry: its arguments, their kinds as bits (argument k is bit k, 1 by reference), its locals, its instructions.
#[derive(Clone, Copy, Debug, PartialEq, Eq)]
pub struct Opening {
    pub arguments: usize,
    pub bits: u32,
    pub locals: usize,
    pub size: usize,
}

#[tactic(auto, using(table::proofs::Bounds::bounds))]
pub fn opening_of(t: &[u32], r: usize) -> Opening
    requires { (is_table t.now ≡ true) × (r < word t.now 2) }
    ensures { (result ≡ opening_at t.now r) × Opened t.now r result.arguments result.bits result.locals result.size }
{
    let a = ROUTINES + ROUTINE_WORDS * r;
    let arguments = t[a + ARGUMENTS] as usize;
    let bits = t[a + KIND_BITS];
    let locals = t[a + LOCALS] as usize;
    let size = t[a + SIZE] as usize;
    Opening {
        arguments,
        bits,
        locals,
        size,
    }
}

// The head of a child field: its number of arguments, its routine.
#[derive(Clone, Copy, Debug, PartialEq, Eq)]
pub struct Head {
    pub arguments: usize,
    pub callee: usize,
}

pub fn head_at(t: &[u32], a: usize) -> Head
    requires { TableLong t.now × (a + 2 ≤ 12288) }
    ensures { (result.arguments ≡ word t.now (a + 0)) × (result.callee ≡ word t.now (a + 1)) }
{
    let arguments = number(t[a + 0]);
    let callee = number(t[a + 1]);
    Head { arguments, callee }
}

// The head behind the child field whose head stands at `a`.
#[tactic(auto, unfolding(table::specs::Decode::after_call))]
pub fn next_head(t: &[u32], a: usize) -> usize
    requires { TableLong t.now × (a + 2 ≤ 12288) }
    ensures { result ≡ after_call t.now a }
{
    let arguments = number(t[a + 0]);
    a + (2 + 2 * arguments)
}

// The head behind `k` child fields, the first of them at `first`.
pub fn head_after(t: &[u32], first: usize, k: usize) -> usize
    requires { TableLong t.now × ((j : ℕ) → j < k → head_after t.now first j + 2 ≤ 12288) }
    ensures { result ≡ head_after t.now first k }
{
    let mut head = first;
    for _ in 0..k {
        head = next_head(t, head);
    }
    head
}

// The name in the cell at `a`.
#[tactic(auto, unfolding(table::specs::Decode::name_at))]
pub fn name_at(t: &[u32], a: usize) -> usize
    requires { TableLong t.now × (a + 2 ≤ 12288) }
    ensures { result ≡ name_at t.now a }
{
    number(t[a + 1])
}

// Is it the kind of a sign? The signs' kinds stand in a row, from `+` to `%`.
pub fn is_sign(kind: u32) -> bool
    ensures { result ≡ is_sign kind }
{
    PLUS <= kind && kind <= REMAINDER
}
