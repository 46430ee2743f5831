// The instant call, of any memories: its questions, then the work of the instant.
ghost use Rattle.walk.specs.Promises.{InstantPromise};
ghost use Rattle.layout.specs.Layout.{layout};
ghost use Rattle.call_conclude.specs.Answers.{result_of};

use call_conclude::{Failure, Figures};
use call_instant_work::instant_work;
use call_questions::instant_question;
use table::TABLE_WORDS;
use words::Moment;

// An instant at a moment, with inputs by number and value.
pub fn instant(
    table: &[u32],
    machine: &mut [u32],
    moment: Moment,
    in_numbers: &[u32],
    in_values: &[u32],
    out_numbers: &mut [u32],
    out_values: &mut [u32],
    allowance: u32,
) -> Result<Figures, Failure>
    ensures { InstantPromise layout table.now machine.old moment.0 in_numbers.now in_values.now
        out_numbers.old out_values.old allowance
        machine.new out_numbers.new out_values.new (result_of result) }
{
    let mut dues: [u64; 65] = [0; 65];
    let asked = instant_question(
        table,
        machine,
        moment,
        in_numbers,
        in_values,
        out_numbers,
        out_values,
        allowance,
        &mut dues,
    );
    asked?;
    instant_work(
        &table[0..TABLE_WORDS],
        machine,
        moment,
        &dues,
        in_numbers,
        in_values,
        out_numbers,
        out_values,
        allowance,
    )
}
