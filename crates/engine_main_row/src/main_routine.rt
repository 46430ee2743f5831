// Main's row. Document 01: "Main has i + o arguments, all `r`: the environment's variables, inputs first"; "The start is the
// instant 0, with main newly called and no inputs".
ghost use Rattle.std.specs.Prelude.{◌≡◌, true, ◌≤◌, ◌<◌};
ghost use Rattle.machine.specs.Words.{HasMachine};
ghost use Rattle.walk.specs.Instant.{main_call};
ghost use Rattle.table.specs.Decode.{table_listing};
ghost use Rattle.table.specs.Question6.{is_table};
ghost use Rattle.engine_rows.specs.Beginning.{environment_caller, main_row};
ghost use Rattle.engine_rows.specs.Records.{filled_row_lem};
ghost use Rattle.engine_blocks.specs.Blocks.{rows_of};
ghost use Rattle.engine_new_names.specs.Naming.{EnvironmentBound, NamesBound};
ghost use Rattle.engine_fill_row.specs.Filling.{MayFillMain};
ghost use Rattle.engine_main_row.specs.MainRoutine.{MainParent, MainIs, main_bindings};

use engine_blocks::{clear_words, put_word};
use engine_fill_row::wait_mark;
use engine_new_names::bind_own;
use engine_new_rows::{Parent, put_kept, put_working};
use machine::{BINDINGS, ENVIRONMENT, FIRST_TRIGGERS, NAMES};
use table_read::opening_of;

// Block 64 has the environment's variables: a name's word is 16 times the block, plus the variable's number there.
const FIRST_OF_ENVIRONMENT: u32 = 1024;

// `count` names for the environment's variables.
fn bind_environment(m: &mut [u32], s: usize, count: usize)
    requires { HasMachine m.old × (s < 64) × (count ≤ 16) }
    ensures { EnvironmentBound m.old s count m.new }
{
    for j in 0..count {
        put_word(m, s, BINDINGS + j, FIRST_OF_ENVIRONMENT + j as u32);
    }
}

// All names of main.
fn bind_main(t: &[u32], m: &mut [u32], s: usize)
    requires { (is_table t.now ≡ true) × HasMachine m.old × (s < 64) }
    ensures { NamesBound m.old s (main_bindings t.now s) m.new }
{
    let opening = opening_of(t, 0);
    let count = opening.arguments;
    let locals = opening.locals;
    bind_environment(m, s, count);
    bind_own(m, s, count, locals, 0);
    put_word(m, s, NAMES, (count + locals) as u32);
}

// The environment as main's caller: all priorities are main's, 2 to the 32 of them.
fn main_parent(t: &[u32]) -> Parent
    requires { is_table t.now ≡ true }
    ensures { MainParent t.now result }
{
    let opening = opening_of(t, 0);
    let count = opening.arguments as u32;
    Parent {
        slot: ENVIRONMENT,
        level: 0,
        base: count,
        low: 0,
        bits: 32,
    }
}

// Main newly called, in slot s.
pub fn main_row(t: &[u32], m: &mut [u32], s: usize)
    requires { (is_table t.now ≡ true) × HasMachine m.old × (s < 64) }
    ensures { MainIs t.now m.old s (λ environment. main_row (table_listing t.now) environment s) m.new }
{
    clear_words(m, s, 0, FIRST_TRIGGERS);
    let opening = opening_of(t, 0);
    let locals = opening.locals;
    let parent = main_parent(t);
    put_kept(m, s, 0, 0, locals as u32);
    put_working(m, s, parent, 0, 0, 0);
    bind_main(t, m, s);
}

// Main's working words, in the slot that it has kept.
pub fn fill_main(t: &[u32], m: &mut [u32], s: usize)
    requires { (is_table t.now ≡ true) × HasMachine m.old × MayFillMain t.now (rows_of m.old) s }
    ensures { MainIs t.now m.old s (λ environment. filled_row_lem (table_listing t.now) (environment_caller (table_listing t.now) environment) (main_call (table_listing t.now)) (rows_of m.old s) s) m.new }
{
    let place = engine_row::place(m, s) as usize;
    let asleep = wait_mark(t, 0, place);
    let parent = main_parent(t);
    put_working(m, s, parent, 0, asleep, 0);
    bind_main(t, m, s);
}
