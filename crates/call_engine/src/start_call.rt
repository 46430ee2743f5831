// The start, of any memories: its questions, then main newly called.
ghost use Rattle.walk.specs.Promises.{StartPromise};
ghost use Rattle.layout.specs.Layout.{layout};
ghost use Rattle.call_conclude.specs.Answers.{result_of};

use call_conclude::{Failure, Figures};
use call_questions::start_question;
use call_start_work::start_work;
use table::TABLE_WORDS;

// "The start is the instant 0, with main newly called and no inputs."
pub fn start(
    table: &[u32],
    machine: &mut [u32],
    out_numbers: &mut [u32],
    out_values: &mut [u32],
    allowance: u32,
) -> Result<Figures, Failure>
    ensures { StartPromise layout table.now machine.old out_numbers.old out_values.old allowance
        machine.new out_numbers.new out_values.new (result_of result) }
{
    start_question(table, machine, out_numbers, out_values, allowance)?;
    start_work(
        &table[0..TABLE_WORDS],
        machine,
        out_numbers,
        out_values,
        allowance,
    )
}
