// The end of a call: the stopped form, or outputs listed, the machine's words brought to rest, and the figures of the result.
ghost use Rattle.std.specs.Prelude.{◌≡◌, ◌≤◌, length};
ghost use Rattle.table.specs.Areas.{TableLong};
ghost use Rattle.machine.specs.Due.{due_at};
ghost use Rattle.table.specs.Decode.{table_listing};
ghost use Rattle.call_conclude.specs.Answers.{due_of};
ghost use Rattle.call_conclude.specs.Conclusions.{Concludes, MayFinish, FinishedAs, MayConclude};

use crate::answers::{Due, Failure, Figures};
use engine_run_laws::Ran;
use table::{INPUTS, OUTPUTS};
use words::{Moment, number};

// A moment due is at least 1, so 0 means none.
fn due_at(due: u64) -> Due
    ensures { due_of result ≡ due_at due }
{
    if due == 0 {
        return Due::Never;
    }
    Due::At(due)
}

// The instant at the present moment has ended, after so many steps.
fn finished(
    table: &[u32],
    machine: &mut [u32],
    present: Moment,
    steps: u32,
    numbers: &mut [u32],
    values: &mut [u32],
) -> Result<Figures, Failure>
    requires { TableLong table.now × (MayFinish table.now machine.old present.0) × (16 ≤ length numbers.old) × (16 ≤ length values.old) }
    ensures { (may : MayFinish table.now machine.old present.0) →
        FinishedAs table.now machine.old numbers.old values.old
        machine.new numbers.new values.new steps may.state result }
{
    let inputs = number(table[INPUTS]);
    let outputs = number(table[OUTPUTS]);
    let listed = engine_outputs::list_outputs(machine, inputs, outputs, numbers, values);
    let due = due_at(engine_finish::finish(machine, present, inputs + outputs));
    Ok(Figures {
        steps,
        listed: listed as u32,
        due,
    })
}

// The run of the instant at the present moment has ended or stopped.
pub fn conclude(
    table: &[u32],
    machine: &mut [u32],
    present: Moment,
    allowance: u32,
    ran: Ran,
    numbers: &mut [u32],
    values: &mut [u32],
) -> Result<Figures, Failure>
    requires { TableLong table.now × (MayConclude table.now machine.old present.0 allowance ran) × (16 ≤ length numbers.old) × (16 ≤ length values.old) }
    ensures { (may : MayConclude table.now machine.old present.0 allowance ran) →
        Concludes (table_listing table.now) machine.old numbers.old values.old
        machine.new numbers.new values.new may.answer result }
{
    match ran {
        Ran::Stopped(number) => {
            machine_halt::halt(machine, number);
            return Err(Failure::Stopped(number));
        }
        Ran::Ended(x) => {
            let left = x.left;
            return finished(table, machine, present, allowance - left, numbers, values);
        }
    }
}
