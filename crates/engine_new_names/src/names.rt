// The names of a new routine. Document 01: "Names in a routine are its arguments, then its locals, numbered from 0"; "`r` by
// reference or `v` by value". A name's word is 16 times the block of its variable, plus the variable's number there.
ghost use Rattle.std.specs.Prelude.{◌≡◌, ◌+◌, ◌*◌, ◌≤◌, ◌<◌};
ghost use Rattle.machine.specs.Words.{HasMachine};
ghost use Rattle.table.specs.Decode.{names_at, kinds_of_bits};
ghost use Rattle.engine_rows.specs.Engine.{child_bindings};
ghost use Rattle.engine_blocks.specs.Blocks.{block};
ghost use Rattle.engine_evaluate.specs.Bound.{bindings_of};
ghost use Rattle.engine_new_names.specs.Naming.{MayBind, ArgumentsBound, OwnBound, EnvironmentBound, NamesBound};

use engine_blocks::{put_word, word_at};
use machine::{BINDINGS, NAMES};
use table::CELL_WORDS;
use table_read::name_at;

// Blocks are numbered in steps of 16: a block has room for 16 variables.
const STEP: u32 = 16;

// The word for an argument: by reference the caller's own word for that name, by value own variable number `own`.
fn argument_word(m: &[u32], me: usize, s: usize, name: usize, bit: u32, own: usize) -> u32
    requires { HasMachine m.now × (me < 64) × (s < 64) × (name < 16) × (own < 16) }
    ensures { (bit ≡ 1 → result ≡ block m.now me (112 + name)) × ((bit ≡ 1 → ⊥) → result ≡ 16 * s + own) }
{
    if bit == 1 {
        return word_at(m, me, BINDINGS + name);
    }
    STEP * s as u32 + own as u32
}

// The arguments' names; the number of those by value, which are own variables.
fn bind_arguments(
    t: &[u32],
    m: &mut [u32],
    me: usize,
    s: usize,
    at: usize,
    count: usize,
    bits: u32,
) -> usize
    requires { MayBind t.now m.old me s at count 0 }
    ensures { ArgumentsBound t.now m.old me s at count bits m.new result }
{
    let mut own: usize = 0;
    let mut rest = bits;
    for j in 0..count {
        let bit = rest % 2;
        let word = argument_word(m, me, s, name_at(t, at + CELL_WORDS * j), bit, own);
        put_word(m, s, BINDINGS + j, word);
        own += 1 - bit as usize;
        rest = rest / 2;
    }
    own
}

// `count` names after the first `from`, for own variables from number `own` on.
pub fn bind_own(m: &mut [u32], s: usize, from: usize, count: usize, own: usize)
    requires { HasMachine m.old × (s < 64) × (from + count ≤ 16) × (own + count ≤ 16) }
    ensures { OwnBound m.old s from count own m.new }
{
    for j in 0..count {
        put_word(
            m,
            s,
            BINDINGS + from + j,
            STEP * s as u32 + (own + j) as u32,
        );
    }
}

// All names of a child field's routine: its arguments, then its locals.
pub fn bind_names(
    t: &[u32],
    m: &mut [u32],
    me: usize,
    s: usize,
    at: usize,
    count: usize,
    bits: u32,
    locals: usize,
)
    requires { MayBind t.now m.old me s at count locals }
    ensures { NamesBound m.old s (child_bindings (kinds_of_bits count bits) (names_at t.now at count) locals (bindings_of m.old me) s 0) m.new }
{
    let own = bind_arguments(t, m, me, s, at, count, bits);
    bind_own(m, s, count, locals, own);
    put_word(m, s, NAMES, (count + locals) as u32);
}
