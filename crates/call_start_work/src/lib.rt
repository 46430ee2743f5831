// The work of the start, its questions answered: main newly called, the run and the end.
#![tactic(auto)]

ghost use Rattle.std.specs.Prelude.{true, ◌≡◌, ◌≤◌, length};
ghost use Rattle.table.specs.Areas.{TableLong};
ghost use Rattle.machine.specs.Words.{HasMachine};
ghost use Rattle.walk.specs.Instant as walk;
ghost use Rattle.table.specs.Decode.{table_listing};
ghost use Rattle.table.specs.Question6.{is_table};
ghost use Rattle.call_conclude.specs.Conclusions.{Concludes};

use call_conclude::{Failure, Figures, conclude};
use words::Moment;

// The start on a table's words, its questions answered: the instant 0.
pub fn start_work(
    table: &[u32],
    machine: &mut [u32],
    numbers: &mut [u32],
    values: &mut [u32],
    allowance: u32,
) -> Result<Figures, Failure>
    requires { TableLong table.now × (is_table table.now ≡ true) × HasMachine machine.old × (allowance ≤ 1000000)
        × (16 ≤ length numbers.old) × (16 ≤ length values.old) }
    ensures { Concludes (table_listing table.now) machine.old numbers.old values.old
        machine.new numbers.new values.new (walk.start (table_listing table.now) allowance) result }
{
    let present = Moment(0);
    let running = engine_begin_start::begin_start(table, machine);
    let ran = engine_run::run_on(table, machine, present, running, allowance);
    conclude(table, machine, present, allowance, ran, numbers, values)
}
