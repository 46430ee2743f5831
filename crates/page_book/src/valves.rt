// One write entered.
ghost use Rattle.std.specs.Prelude.{◌≡◌, ◌+◌, ◌-◌, ◌≤◌, ◌<◌, length};
ghost use Rattle.page_book.specs.Book.{book_of, line_of, row_closed, row_opened, leaves_valve, entered};

use openings::Write;
use page_rows::{put_open_for, put_row};
use words::number;

// "Each page is 60 rows", of which the first is the heading.
const OPENINGS_ON_PAGE: u64 = 59;

// The line of a row that stands on another page.
const ELSEWHERE: u8 = 60;

// The valves while a page is written: for each output the line of its open valve's row, 0 if the valve is closed, ELSEWHERE if the row
// stands on another page; the moment of its last opening; and how many openings there were.
#[derive(Clone, Copy)]
pub struct Valves {
    pub lines: [u8; 16],
    pub opened: [u64; 16],
    pub count: u64,
    pub ghost lines_long: { length lines ≡ 16 },
    pub ghost opened_long: { length opened ≡ 16 },
}

// The line of the opening with this number.
fn line_of(first: u64, number: u64) -> u8
    ensures { (result ≡ line_of first number) × (result ≤ 60) }
{
    if number < first {
        return ELSEWHERE;
    }
    let place = number - first;
    if place >= OPENINGS_ON_PAGE {
        return ELSEWHERE;
    }
    place as u8 + 1
}

// The last column of a row, if it stands on this page.
fn close_row(memory: &mut [u8], line: u8, milliseconds: u64)
    ensures { memory.new ≡ row_closed memory.old line milliseconds }
{
    if line == 0 {
        return;
    }
    if line >= ELSEWHERE {
        return;
    }
    put_open_for(memory, usize::from(line), milliseconds);
}

// The row of a valve that opens, if it stands on this page.
fn open_row(memory: &mut [u8], line: u8, output: u32, moment: u64)
    requires { output < 16 }
    ensures { memory.new ≡ row_opened memory.old line output moment }
{
    if line == 0 {
        return;
    }
    if line >= ELSEWHERE {
        return;
    }
    put_row(memory, usize::from(line), output, moment);
}

// The write enters.
pub fn enter_write(memory: &mut [u8], valves: &mut Valves, first: u64, write: Write)
    requires { (write.output < 16) × (valves.old.count < 18446744073709551615) }
    ensures { (book_of memory.new valves.new.lines valves.new.opened valves.new.count ≡
        entered first (book_of memory.old valves.old.lines valves.old.opened valves.old.count) write)
        × (valves.new.count ≤ valves.old.count + 1) }
{
    let Write {
        moment,
        output,
        value,
    } = write;
    let valve = number(output);
    let line = valves.lines[valve];
    if value == 0 {
        valves.lines[valve] = 0;
        close_row(memory, line, moment.saturating_sub(valves.opened[valve]));
        return;
    }
    if line != 0 {
        return;
    }
    let new = line_of(first, valves.count);
    valves.lines[valve] = new;
    valves.opened[valve] = moment;
    valves.count += 1;
    open_row(memory, new, output, moment);
}

// Does a write of this value leave the valve with this line as it is, open or closed?
pub fn leaves_valve(line: u8, value: u32) -> bool
    ensures { result ≡ leaves_valve line value }
{
    if value == 0 {
        return line == 0;
    }
    line != 0
}

// The write enters; one that changes nothing is told by a look at its valve.
pub fn enter_change(memory: &mut [u8], valves: &mut Valves, first: u64, write: Write)
    requires { (write.output < 16) × (valves.old.count < 18446744073709551615) }
    ensures { (book_of memory.new valves.new.lines valves.new.opened valves.new.count ≡
        entered first (book_of memory.old valves.old.lines valves.old.opened valves.old.count) write)
        × (valves.new.count ≤ valves.old.count + 1) }
{
    let valve = number(write.output);
    if leaves_valve(valves.lines[valve], write.value) {
        return;
    }
    enter_write(memory, valves, first, write);
}
