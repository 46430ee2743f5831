// A write of a variable, by block s and index (block 64 has the environment's), after which no waiting write is there: an input's, and
// that of a waiting write made. `m` is the machine's memory, `s` a slot or 64.
#![tactic(auto)]

ghost use Rattle.std.specs.Prelude.{ℕ, ◌≤◌, ◌<◌};
ghost use Rattle.machine.specs.Words.{HasMachine};
ghost use Rattle.walk.specs.State.{input_to, made_due};
ghost use Rattle.engine_blocks.specs.Blocks.{block, owner_at};
ghost use Rattle.engine_blocks.specs.Store.{with_variable};
ghost use Rattle.engine_blocks.specs.Changes.{InBlock, Changes, overwritten_block, made_block, due_block};

use engine_blocks::{put_word, word_at};
use engine_variable_changes::unmark;
use engine_variables::due;
use machine::{DUE_HIGH, DUE_LOW, VALUE, VARIABLE_WORDS, WAITING, WRITTEN};
use words::Moment;

// An input's write, at any moment: the value, the mark of this instant, and no waiting write. Document 02: "An input now drops any waiting
// write on its variable".
pub fn overwrite(m: &mut [u32], s: usize, index: usize, v: u32)
    requires { HasMachine m.old × (s ≤ 64) × (index < 16) }
    ensures { (moment : ℕ) → Changes s m.old m.new (overwritten_block index v (block m.old s))
        (with_variable (owner_at s index) (λ x. input_to moment x v)) }
{
    put_word(m, s, VALUE + index * VARIABLE_WORDS, v);
    put_word(m, s, WAITING + index * VARIABLE_WORDS, 0);
    put_word(m, s, DUE_LOW + index * VARIABLE_WORDS, 0);
    put_word(m, s, DUE_HIGH + index * VARIABLE_WORDS, 0);
    put_word(m, s, WRITTEN + index, 1);
}

// The waiting write is made, and is gone.
pub fn make(m: &mut [u32], s: usize, index: usize)
    requires { HasMachine m.old × (s ≤ 64) × (index < 16) }
    ensures { InBlock s m.old m.new (made_block index (block m.old s)) }
{
    let waiting = word_at(m, s, WAITING + index * VARIABLE_WORDS);
    overwrite(m, s, index, waiting);
}

// "Every waiting write due at t is made, and is gone", t being the present moment: that of one variable, which is unwritten otherwise.
pub fn make_due(m: &mut [u32], s: usize, index: usize, present: Moment)
    requires { HasMachine m.old × (s ≤ 64) × (index < 16) × (0 < present.0) }
    ensures { Changes s m.old m.new (due_block index present.0 (block m.old s))
        (with_variable (owner_at s index) (λ x. made_due present.0 x)) }
{
    match due(m, s, index) {
        Some(moment) if moment.0 == present.0 => make(m, s, index),
        _ => unmark(m, s, index),
    }
}
