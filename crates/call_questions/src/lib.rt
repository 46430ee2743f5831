// The questions that the calls put before they run: 1 and 6 to 12.
#![tactic(auto)]

ghost use Rattle.std.specs.Prelude.{true, not, ◌≡◌, ltb, length};
ghost use Rattle.table.specs.Areas.{HasTable};
ghost use Rattle.walk.specs.Calls.{Outcome, ask, due_before, allowed, first_words};
ghost use Rattle.table.specs.Question6.{is_table};
ghost use Rattle.table.specs.Decode.{table_listing};
ghost use Rattle.machine.specs.Words.{moment_at, HasMachine, MachineLong};
ghost use Rattle.machine.specs.Due.{due_at};
ghost use Rattle.machine.specs.ReadMachine.{read_machine};
ghost use Rattle.call_arguments.specs.Asked.{machine_refusal, numbers_rise, asked, MachineAsked, InstantAsked, StartAsked};
ghost use Rattle.call_questions.specs.Running.{running_or_refused};

use call_arguments::{Refusal, allowance_fits, due_before, long_enough, numbers_rise};
use machine::MACHINE_WORDS;
use machine_check::MachineCheck;
use table::INPUTS;
use words::{Moment, number};

// 7 and 8, by question 7's answer; of a machine that runs, the next moment due (0: none).
pub fn running(check: MachineCheck) -> Result<u64, Refusal>
    ensures { result ≡ running_or_refused check }
{
    match check {
        MachineCheck::NotAState => Err(Refusal::NoState),
        MachineCheck::Stopped(_) => Err(Refusal::Halted),
        MachineCheck::Running(due) => Ok(due),
    }
}

// 7 and 8 of a machine.
pub fn machine_refusal(table: &[u32], machine: &[u32]) -> Result<(), Refusal>
    requires { HasTable table.now × HasMachine machine.now × (is_table (first_words table.now) ≡ true) }
    ensures { result ≡ machine_refusal (read_machine (table_listing (first_words table.now)) (first_words machine.now)) }
{
    let mut dues: [u64; 65] = [0; 65];
    running(machine_check::check_machine(table, machine, &mut dues))?;
    Ok(())
}

// 9 to 12, of the words of a running machine and its next moment due (0: none).
fn state_question(
    machine: &[u32],
    due: u64,
    inputs: usize,
    moment: Moment,
    numbers: &[u32],
    allowance: u32,
) -> Result<(), Refusal>
    requires { MachineLong machine.now }
    ensures { (next : Outcome) → asked result next ≡ ask 9 (ltb (moment_at machine.now 1) moment.0)
        (ask 10 (not (due_before (due_at due) moment.0))
        (ask 11 (numbers_rise inputs 0 numbers.now) (ask 12 (allowed allowance) next))) }
{
    let present = machine_words::present_moment(machine);
    if moment.0 <= present.0 {
        return Err(Refusal::NotLater);
    }
    if due_before(due, moment) {
        return Err(Refusal::Overdue);
    }
    if !numbers_rise(numbers, inputs) {
        return Err(Refusal::Inputs);
    }
    if !allowance_fits(allowance) {
        return Err(Refusal::Allowance);
    }
    Ok(())
}

// 7 to 12, on a table that has passed question 6. If none refuses, the soonest moment due of each block is kept.
fn machine_question(
    table: &[u32],
    machine: &[u32],
    moment: Moment,
    numbers: &[u32],
    allowance: u32,
    dues: &mut [u64; 65],
) -> Result<(), Refusal>
    requires { HasTable table.now × HasMachine machine.now × (is_table (first_words table.now) ≡ true) × (length dues.old ≡ 65) }
    ensures { MachineAsked (table_listing (first_words table.now)) (first_words machine.now) moment.0 numbers.now allowance
        dues.new result }
{
    let due = running(machine_check::check_machine(table, machine, dues))?;
    let inputs = number(table[INPUTS]);
    state_question(
        &machine[0..MACHINE_WORDS],
        due,
        inputs,
        moment,
        numbers,
        allowance,
    )
}

// All questions of the instant call: 1, 6, 7, 8, 9, 10, 11, 12. If none refuses, the soonest moment due of each block is kept.
pub fn instant_question(
    table: &[u32],
    machine: &[u32],
    moment: Moment,
    in_numbers: &[u32],
    in_values: &[u32],
    out_numbers: &[u32],
    out_values: &[u32],
    allowance: u32,
    dues: &mut [u64; 65],
) -> Result<(), Refusal>
    requires { length dues.old ≡ 65 }
    ensures { InstantAsked table.now machine.now moment.0 in_numbers.now in_values.now
        out_numbers.now out_values.now allowance dues.new result }
{
    if !long_enough(
        table.len(),
        machine.len(),
        out_numbers.len(),
        out_values.len(),
    ) {
        return Err(Refusal::Short);
    }
    if in_numbers.len() != in_values.len() {
        return Err(Refusal::Short);
    }
    if !table_check::is_table(table) {
        return Err(Refusal::NoTable);
    }
    machine_question(table, machine, moment, in_numbers, allowance, dues)
}

// All questions of the start: 1, 6, 12.
pub fn start_question(
    table: &[u32],
    machine: &[u32],
    out_numbers: &[u32],
    out_values: &[u32],
    allowance: u32,
) -> Result<(), Refusal>
    ensures { StartAsked table.now machine.now out_numbers.now out_values.now allowance result }
{
    if !long_enough(
        table.len(),
        machine.len(),
        out_numbers.len(),
        out_values.len(),
    ) {
        return Err(Refusal::Short);
    }
    if !table_check::is_table(table) {
        return Err(Refusal::NoTable);
    }
    if !allowance_fits(allowance) {
        return Err(Refusal::Allowance);
    }
    Ok(())
}
