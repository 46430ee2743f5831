// Variables by block s and index (block 64 has the environment's), changed. Every contract says what the words stand for as rows and
// environment. `m` is the machine's memory, `s` a slot or 64.
#![tactic(auto)]

ghost use Rattle.std.specs.Prelude.{ℕ, ◌≤◌, ◌<◌};
ghost use Rattle.machine.specs.Words.{HasMachine};
ghost use Rattle.walk.specs.State.{written_to, scheduled_on, unmarked_of};
ghost use Rattle.engine_blocks.specs.Blocks.{block, owner_at};
ghost use Rattle.engine_blocks.specs.Store.{with_variable};
ghost use Rattle.engine_blocks.specs.Changes.{Changes, assigned_block, scheduled_block, unmarked_block};

use engine_blocks::put_word;
use engine_variables::SIZE;
use machine::{DUE_HIGH, DUE_LOW, VALUE, VARIABLE_WORDS, WAITING, WRITTEN};
use words::Moment;

// A write by `S`, at any moment: the value, and the mark of this instant; the waiting write stays. (An input's: engine_make_due `overwrite`.)
pub fn assign(m: &mut [u32], s: usize, index: usize, v: u32)
    requires { HasMachine m.old × (s ≤ 64) × (index < 16) }
    ensures { (moment : ℕ) → Changes s m.old m.new (assigned_block index v (block m.old s))
        (with_variable (owner_at s index) (λ x. written_to moment x v)) }
{
    put_word(m, s, VALUE + index * VARIABLE_WORDS, v);
    put_word(m, s, WRITTEN + index, 1);
}

// A waiting write of v due at a moment; it replaces the old one.
pub fn schedule(m: &mut [u32], s: usize, index: usize, moment: Moment, v: u32)
    requires { HasMachine m.old × (s ≤ 64) × (index < 16) × (0 < moment.0) }
    ensures { Changes s m.old m.new (scheduled_block index moment.0 v (block m.old s))
        (with_variable (owner_at s index) (λ x. scheduled_on x moment.0 v)) }
{
    put_word(m, s, WAITING + index * VARIABLE_WORDS, v);
    put_word(
        m,
        s,
        DUE_LOW + index * VARIABLE_WORDS,
        (moment.0 % SIZE) as u32,
    );
    put_word(
        m,
        s,
        DUE_HIGH + index * VARIABLE_WORDS,
        (moment.0 / SIZE) as u32,
    );
}

// The mark of this instant taken away.
pub fn unmark(m: &mut [u32], s: usize, index: usize)
    requires { HasMachine m.old × (s ≤ 64) × (index < 16) }
    ensures { Changes s m.old m.new (unmarked_block index (block m.old s)) (with_variable (owner_at s index) (λ x. unmarked_of x)) }
{
    put_word(m, s, WRITTEN + index, 0);
}
