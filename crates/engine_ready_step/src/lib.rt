// One instruction of the running routine that may change the ready list. `t` is the table, `m` the machine's memory.
#![tactic(auto)]

ghost use Rattle.std.specs.Prelude.{ℕ};
ghost use Rattle.walk.specs.Walk.{instruction_at};
ghost use Rattle.table.specs.Decode.{table_listing};
ghost use Rattle.table.specs.Entry.{Fetched};
ghost use Rattle.engine_blocks.specs.Blocks.{rows_of};
ghost use Rattle.engine_steps.specs.Outcome.{Executes, NeedsReady};
ghost use Rattle.engine_run_laws.specs.Asked.{MayStep};

use engine_steps::{Running, Stepped};
use table::{ASSIGN, FORK, WAIT};
use table_read::Entry;
use words::number;

// The instruction whose entry was read, executed: one that may change the ready list. The cases are those of its number in the table.
fn execute(t: &[u32], m: &mut [u32], running: Running, entry: Entry) -> Stepped
    requires { (MayStep t.now m.old running)
        × (NeedsReady (instruction_at (table_listing t.now) (rows_of m.old running.me).routine (rows_of m.old running.me).place))
        × (Fetched t.now (rows_of m.old running.me).routine (rows_of m.old running.me).place entry.kind entry.operand entry.cells entry.first entry.second) }
    ensures { (moment : ℕ) → Executes (table_listing t.now) moment
        (instruction_at (table_listing t.now) (rows_of m.old running.me).routine (rows_of m.old running.me).place)
        m.old m.new running result }
{
    let kind = entry.kind;
    let operand = entry.operand;
    let cells = entry.cells;
    let first = entry.first;
    match kind {
        ASSIGN => {
            return engine_write_steps::assign_step(t, m, running, operand, cells, first);
        }
        WAIT => {
            return engine_steps::wait_step(m, running);
        }
        FORK => {
            return engine_fork::fork_step(t, m, running, cells, first);
        }
        // An `E`: no other number is left.
        _ => {
            return engine_end_step::end_step(m, running);
        }
    }
}

// The instruction at which the running routine is, read and executed.
pub fn step(t: &[u32], m: &mut [u32], running: Running) -> Stepped
    requires { (MayStep t.now m.old running)
        × (NeedsReady (instruction_at (table_listing t.now) (rows_of m.old running.me).routine (rows_of m.old running.me).place)) }
    ensures { (moment : ℕ) → Executes (table_listing t.now) moment
        (instruction_at (table_listing t.now) (rows_of m.old running.me).routine (rows_of m.old running.me).place)
        m.old m.new running result }
{
    let me = running.me;
    let routine = number(engine_row::routine(m, me));
    let place = number(engine_row::place(m, me));
    let entry = table_read::fetch(t, routine, place);
    execute(t, m, running, entry)
}
