// One call, as the file has it: the memories are lent as it says.
// An item of the file is a word, its kind. A call (kind 0 or 1) goes on with: spoil, t (a moment), allowance, number of inputs, a number and a
// value for each; then its answer: number, steps, outputs listed, 1 if a moment is due or else 0, that moment, a number and a value for each output.
ghost use Rattle.std.specs.Prelude.{◌≡◌};
ghost use Rattle.test_stored_calls.specs.Calls.{CallAt, answer_place, call_outcome, lent_outcome, stored_outcome, Made};
ghost use Rattle.test_stored_calls.specs.Reports.{Reported};

use crate::reports::report_in;
use test_cases::frame::{moment_at, past, word_at};
use test_lending::places::lent;
use test_stored_answers::Report;
use test_stored_answers::inputs::read_pairs;

// No more inputs of a call are kept.
const KEPT: usize = 16;

// The kind (0 the start, 1 an instant), what is spoilt, the moment, the allowance, how many inputs, and where they stand.
#[derive(Clone, Copy, Debug, PartialEq, Eq)]
pub struct Call {
    pub kind: u32,
    pub spoil: u32,
    pub t: u64,
    pub allowance: u32,
    pub inputs: u32,
    pub at: usize,
}

pub fn call_at(s: &[u8], at: usize) -> Call
    ensures { CallAt s.now at result }
{
    let kind = word_at(s, at);
    let spoil = word_at(s, past(s, at, 4));
    let t = moment_at(s, past(s, at, 8));
    let allowance = word_at(s, past(s, at, 16));
    let inputs = word_at(s, past(s, at, 20));
    let first = past(s, at, 24);
    Call {
        kind,
        spoil,
        t,
        allowance,
        inputs,
        at: first,
    }
}

// Where the answer of a call stands: after the pairs of its inputs.
pub fn answer_place(s: &[u8], call: Call) -> usize
    ensures { result ≡ answer_place s.now call }
{
    let pairs = call.inputs as usize;
    past(s, call.at, pairs * 8)
}

// The call, made by the library as firmware links it.
fn library_call(
    call: Call,
    table: &[u32],
    machine: &mut [u32],
    ins: &[u32],
    news: &[u32],
    numbers: &mut [u32],
    values: &mut [u32],
) -> Report
    ensures { Reported table.now machine.old numbers.old values.old
        machine.new numbers.new values.new
        (call_outcome call table.now machine.old ins.now news.now numbers.old values.old) result }
{
    let t = call.t;
    let allowance = call.allowance;
    if call.kind == 0 {
        return report_in(fabrwent::fabrwent_start(table, machine, numbers, values, allowance));
    }
    report_in(fabrwent::fabrwent_instant(table, machine, t, ins, news, numbers, values, allowance))
}

// Document 01, question 1: "Table 12,288 words of 32 bits, machine 12,288, output lists 16 each; the two input lists equally long". Spoil 1 to 4
// lends one place fewer, 5 the values of the inputs without their last.
fn make_lent(
    call: Call,
    table: &[u32],
    machine: &mut [u32],
    ins: &[u32],
    news: &[u32],
    numbers: &mut [u32],
    values: &mut [u32],
) -> Report
    ensures { Made call table.now machine.old numbers.old values.old
        machine.new numbers.new values.new
        (lent_outcome call table.now machine.old ins.now news.now numbers.old values.old) result }
{
    let spoil = call.spoil;
    let table_lent = lent(table, spoil, 1, 12287);
    let machine_lent = lent(machine, spoil, 2, 12287);
    let numbers_lent = lent(numbers, spoil, 3, 15);
    let values_lent = lent(values, spoil, 4, 15);
    let news_lent = lent(news, spoil, 5, news.len().saturating_sub(1));
    library_call(
        call,
        &table[..table_lent],
        &mut machine[..machine_lent],
        ins,
        &news[..news_lent],
        &mut numbers[..numbers_lent],
        &mut values[..values_lent],
    )
}

// Makes the call with the inputs of the file, of which 16 are kept.
pub fn make_stored(
    s: &[u8],
    call: Call,
    table: &[u32],
    machine: &mut [u32],
    numbers: &mut [u32],
    values: &mut [u32],
) -> Report
    ensures { Made call table.now machine.old numbers.old values.old
        machine.new numbers.new values.new
        (stored_outcome s.now call table.now machine.old numbers.old values.old) result }
{
    let mut ins = [0u32; KEPT];
    let mut news = [0u32; KEPT];
    let inputs = call.inputs as usize;
    read_pairs(s, call.at, inputs, &mut ins, &mut news);
    let kept = inputs.min(KEPT);
    make_lent(
        call,
        table,
        machine,
        &ins[..kept],
        &news[..kept],
        numbers,
        values,
    )
}
