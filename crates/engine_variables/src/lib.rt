// Variables by block s and index (block 64 has the environment's), and the names bound to them, read. Every contract says what the
// words stand for as rows and environment. `m` is the machine's memory, `s` a slot or 64.
#![tactic(auto)]

ghost use Rattle.std.specs.Prelude.{◌≤◌, ◌<◌};
ghost use Rattle.machine.specs.Words.{HasMachine};
ghost use Rattle.engine_blocks.specs.Blocks.{block, rows_of};
ghost use Rattle.engine_variables.specs.Bindings.{ReadOf, BoundTo, due_moment};

use engine_blocks::word_at;
use machine::{BINDINGS, DUE_HIGH, DUE_LOW, ENVIRONMENT, VALUE, VARIABLE_WORDS, WRITTEN};
use words::Moment;

// 2 to the 32: a moment's low word counts to here.
pub const SIZE: u64 = 4294967296;

// The variable that a name stands for.
#[derive(Clone, Copy)]
pub struct Binding {
    pub block: usize,
    pub index: usize,
}

// The variable of a name of the routine in slot s.
pub fn owner(m: &[u32], s: usize, name: usize) -> Binding
    requires { HasMachine m.now × (s < 64) × (name < 16) }
    ensures { BoundTo (rows_of m.now s) name result }
{
    let word = word_at(m, s, BINDINGS + name);
    let index = (word % 16) as usize;
    let block = ((word / 16) as usize).min(ENVIRONMENT);
    Binding { block, index }
}

// Its value.
pub fn value(m: &[u32], s: usize, index: usize) -> u32
    requires { HasMachine m.now × (s ≤ 64) × (index < 16) }
    ensures { ReadOf m.now s index (λ x. x.value) result }
{
    word_at(m, s, VALUE + index * VARIABLE_WORDS)
}

// Whether it was written in this instant.
pub fn written(m: &[u32], s: usize, index: usize) -> bool
    requires { HasMachine m.now × (s ≤ 64) × (index < 16) }
    ensures { ReadOf m.now s index (λ x. x.written) result }
{
    word_at(m, s, WRITTEN + index) != 0
}

// The moment of its waiting write, if it has one: in the words 0 means none.
pub fn due(m: &[u32], s: usize, index: usize) -> Option<Moment>
    requires { HasMachine m.now × (s ≤ 64) × (index < 16) }
    ensures { ReadOf m.now s index (λ x. due_moment x.waiting) result }
{
    let first = u64::from(word_at(m, s, DUE_LOW + index * VARIABLE_WORDS));
    let second = u64::from(word_at(m, s, DUE_HIGH + index * VARIABLE_WORDS));
    let moment = first + second * SIZE;
    if moment == 0 {
        None
    } else {
        Some(Moment(moment))
    }
}
