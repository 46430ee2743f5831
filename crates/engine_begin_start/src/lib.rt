// The beginning of the start. Document 01: "The start is the instant 0, with main newly called and no inputs."
// `t` is the table, `m` the machine's memory.
#![tactic(auto)]

ghost use Rattle.std.specs.Prelude.{◌≡◌, true};
ghost use Rattle.machine.specs.Words.{HasMachine};
ghost use Rattle.table.specs.Question6.{is_table};
ghost use Rattle.engine_begin_start.specs.Begun.{BegunStart};

use engine_main_row::main_row;
use engine_steps::Running;
use machine_halt::blank;

// Blank memory, main newly called in the first slot: it runs, and nobody else is ready.
pub fn begin_start(t: &[u32], m: &mut [u32]) -> Running
    requires { (is_table t.now ≡ true) × HasMachine m.old }
    ensures { BegunStart t.now m.old m.new result }
{
    blank(m);
    main_row(t, m, 0);
    let ready = engine_ready::empty();
    Running {
        ready,
        live: 1,
        woken: 0,
        me: 0,
    }
}
