// The values of a new routine's arguments by value. Document 01: "New variables hold 0, or the passed value for `v`, and are not
// written"; "all `v` values are copied before the first child runs".
ghost use Rattle.std.specs.Prelude.{◌+◌, ◌<◌, length};
ghost use Rattle.machine.specs.Words.{HasMachine};
ghost use Rattle.engine_evaluate.specs.Bound.{bindings_of};
ghost use Rattle.engine_new_names.specs.Passing.{MayPass, ValuesPassed, ValuePassed};

use engine_blocks::put_word;
use engine_evaluate::value_of;
use machine::{VALUE, VARIABLE_WORDS};
use table::CELL_WORDS;
use table_read::name_at;

// One argument: by value it is own variable number `own`. The number of own variables after it.
fn pass_value(m: &mut [u32], me: usize, s: usize, name: usize, bit: u32, own: usize) -> usize
    requires { HasMachine m.old × (me < 64) × (s < 64) × (name < length (bindings_of m.old me)) × (own < 16) }
    ensures { ValuePassed m.old me s name bit own m.new result }
{
    if bit == 1 {
        return own;
    }
    let v = value_of(m, me, name);
    put_word(m, s, VALUE + own * VARIABLE_WORDS, v);
    own + 1
}

// All arguments; the number of those by value.
pub fn pass_values(
    t: &[u32],
    m: &mut [u32],
    me: usize,
    s: usize,
    at: usize,
    count: usize,
    bits: u32,
) -> usize
    requires { MayPass t.now m.old me s at count 0 }
    ensures { ValuesPassed t.now m.old me s at count bits m.new result }
{
    let mut own: usize = 0;
    let mut rest = bits;
    for j in 0..count {
        own = pass_value(m, me, s, name_at(t, at + CELL_WORDS * j), rest % 2, own);
        rest = rest / 2;
    }
    own
}
