// One engine call with what is printed of it.
ghost use Rattle.std.specs.Prelude.{◌≡◌, ◌≤◌, length, take};
ghost use Rattle.table.specs.Areas.{HasTable};
ghost use Rattle.machine.specs.Words.{HasMachine};
ghost use Rattle.session_calls.specs.Calls.{listed_of};
ghost use Rattle.session_printed.specs.Made.{CalledPrinted, StartPrinted, InstantPrinted};

use session_calls::{Called, Clock, make_instant, make_start};
use session_print::{put_end_line, put_write_lines};

// How many bytes were printed: the session's end, or the writes of a call that went through.
#[derive(Clone, Copy)]
pub enum Made {
    Ended(usize),
    Went(Clock, usize),
}

// What came of a call at a time, after the present moment.
pub fn print_called(
    called: Called,
    present: u64,
    time: u64,
    numbers: &[u32],
    values: &[u32],
    out: &mut [u8],
) -> Made
    requires { (16 ≤ length numbers.now) × (16 ≤ length values.now) × (1100 ≤ length out.old) × (listed_of called ≤ 16) }
    ensures { CalledPrinted called present time numbers.now values.now out.old out.new result }
{
    match called {
        Called::Ended(number) => {
            let n = put_end_line(out, 0, number, present);
            Made::Ended(n)
        }
        Called::Went(clock, listed) => {
            let n = put_write_lines(out, 0, time, &numbers[..listed], &values[..listed]);
            Made::Went(clock, n)
        }
    }
}

// The outputs that a call lists: they are local to it, printed and then forgotten.
fn outputs() -> [u32; 16]
    ensures { 16 ≡ length result }
{
    [0; 16]
}

// The start.
pub fn print_start(table: &[u32], machine: &mut [u32], out: &mut [u8]) -> Made
    requires { HasTable table.now × HasMachine machine.old × (1100 ≤ length out.old) }
    ensures { StartPrinted table.now machine.old out.old machine.new out.new result }
{
    let mut numbers = outputs();
    let mut values = outputs();
    let called = make_start(table, machine, &mut numbers, &mut values);
    print_called(called, 0, 0, &numbers, &values, out)
}

// The instant at a time with so many of these inputs, after the present moment.
pub fn print_instant(
    table: &[u32],
    machine: &mut [u32],
    present: u64,
    time: u64,
    in_numbers: &[u32],
    in_values: &[u32],
    count: usize,
    out: &mut [u8],
) -> Made
    requires { HasTable table.now × HasMachine machine.old × (count ≤ length in_numbers.now) × (count ≤ length in_values.now)
        × (1100 ≤ length out.old) }
    ensures { InstantPrinted present time (take count in_numbers.now) (take count in_values.now)
        table.now machine.old out.old machine.new out.new result }
{
    let mut numbers = outputs();
    let mut values = outputs();
    let called = make_instant(
        table,
        machine,
        time,
        in_numbers,
        in_values,
        count,
        &mut numbers,
        &mut values,
    );
    print_called(called, present, time, &numbers, &values, out)
}
