// A session's calls on the engine.
ghost use Rattle.std.specs.Prelude.{◌≡◌, ◌≤◌, length, take};
ghost use Rattle.table.specs.Areas.{HasTable};
ghost use Rattle.machine.specs.Words.{HasMachine};
ghost use Rattle.call_conclude.specs.Answers.{due_of, result_of};
ghost use Rattle.session_calls.specs.Calls.{Tells, StartMade, InstantMade};

use crate::clock::Clock;
use call_engine::{Due, Failure, Figures, instant, start};
use words::Moment;

// "allowance 10,000"
const ALLOWANCE: u32 = 10000;

// What came of a call.
#[derive(Clone, Copy)]
pub enum Called {
    // the number of the refusal or stop, which ends the session
    Ended(u32),
    // it went through: the clock after it, and how many outputs it lists
    Went(Clock, usize),
}

// What of an answer the session needs.
#[derive(Clone, Copy)]
pub struct Told {
    pub number: u32,
    pub listed: u32,
    pub due: Due,
}

fn tell(answer: Result<Figures, Failure>) -> Told
    ensures { (result.number ≡ (result_of answer).number) × (result.listed ≡ (result_of answer).listed) × (due_of result.due ≡ (result_of answer).due) }
{
    match answer {
        Ok(figures) => Told {
            number: 0,
            listed: figures.listed,
            due: figures.due,
        },
        Err(failure) => Told {
            number: failure.number(),
            listed: 0,
            due: Due::Never,
        },
    }
}

// What came of a call at a time, of its answer.
fn told_at(answer: Result<Figures, Failure>, time: u64) -> Called
    ensures { Tells (result_of answer) time result }
{
    let result = tell(answer);
    let number = result.number;
    if number != 0 {
        return Called::Ended(number);
    }
    let listed = result.listed as usize;
    let due = result.due;
    Called::Went(Clock { now: time, due }, listed)
}

// The start.
pub fn make_start(
    table: &[u32],
    machine: &mut [u32],
    numbers: &mut [u32],
    values: &mut [u32],
) -> Called
    requires { HasTable table.now × HasMachine machine.old × (16 ≤ length numbers.old) × (16 ≤ length values.old) }
    ensures { StartMade table.now machine.old numbers.old values.old
        machine.new numbers.new values.new result }
{
    let answer = start(table, machine, numbers, values, ALLOWANCE);
    told_at(answer, 0)
}

// The instant at a time with so many of these inputs. Here, at the session's boundary, a number is made a moment.
pub fn make_instant(
    table: &[u32],
    machine: &mut [u32],
    time: u64,
    in_numbers: &[u32],
    in_values: &[u32],
    count: usize,
    numbers: &mut [u32],
    values: &mut [u32],
) -> Called
    requires { HasTable table.now × HasMachine machine.old × (count ≤ length in_numbers.now) × (count ≤ length in_values.now)
        × (16 ≤ length numbers.old) × (16 ≤ length values.old) }
    ensures { InstantMade time (take count in_numbers.now) (take count in_values.now)
        table.now machine.old numbers.old values.old machine.new numbers.new values.new result }
{
    let answer = instant(
        table,
        machine,
        Moment(time),
        &in_numbers[..count],
        &in_values[..count],
        numbers,
        values,
        ALLOWANCE,
    );
    told_at(answer, time)
}
