// The work of an instant call, its questions answered: the beginning, the run and the end.
#![tactic(auto)]

ghost use Rattle.std.specs.Prelude.{◌≤◌, length};
ghost use Rattle.table.specs.Areas.{TableLong};
ghost use Rattle.walk.specs.Instant as walk;
ghost use Rattle.walk.specs.Calls.{inputs_of};
ghost use Rattle.table.specs.Decode.{table_listing};
ghost use Rattle.call_conclude.specs.Conclusions.{Concludes};
ghost use Rattle.call_instant_work.specs.Works.{MayInstant};

use call_conclude::{Failure, Figures, conclude};
use machine::LIVE;
use words::Moment;

// The instant at the present moment on a table's words, its questions answered; the soonest moment due of each block is known.
pub fn instant_work(
    table: &[u32],
    machine: &mut [u32],
    present: Moment,
    dues: &[u64; 65],
    in_numbers: &[u32],
    in_values: &[u32],
    numbers: &mut [u32],
    values: &mut [u32],
    allowance: u32,
) -> Result<Figures, Failure>
    requires { TableLong table.now × (MayInstant table.now machine.old present.0 dues.now in_numbers.now in_values.now allowance)
        × (16 ≤ length numbers.old) × (16 ≤ length values.old) }
    ensures { (may : MayInstant table.now machine.old present.0 dues.now in_numbers.now in_values.now allowance) →
        Concludes (table_listing table.now) machine.old numbers.old values.old
        machine.new numbers.new values.new
        (walk.instant (table_listing table.now) may.state present.0 (inputs_of in_numbers.now in_values.now) allowance) result }
{
    let live = machine[LIVE];
    let ready = engine_begin::begin_instant(table, machine, present, dues, in_numbers, in_values);
    let ran = engine_run::run_ready(table, machine, present, ready, live, allowance);
    conclude(table, machine, present, allowance, ran, numbers, values)
}
