// The instructions but for the fork, each from the fields after its letter: written to its target.
ghost use Rattle.listing.specs.Form.{read_assign, read_schedule, read_branch, read_jump, read_wait, read_end};
ghost use Rattle.table_instructions.specs.Writable.{Writable};
ghost use Rattle.table_lines.specs.Lines.{Good, rest_at, WritesRest};

use table::{ASSIGN, BRANCH, END, JUMP, SCHEDULE, WAIT};
use table_cells::cell::write_cells;
use table_cells::put::put_entry;
use table_cells::word::word_field;
use table_lines::{Holds, Target, WrittenLine};
use text_place::Place;

// Document 01: "`S|n|e` writes expression e to name n."
pub fn write_assign(s: &[u8], t: &mut [u32], place: Place, stop: u8, to: Target) -> WrittenLine
    requires { Writable s.now place to.entry to.cells (Good (rest_at read_assign s.now place stop)) }
    ensures { WritesRest read_assign s.now place stop to.entry to.cells t.old t.new result }
{
    let name = word_field(s, place, stop);
    let value = name.next;
    let cells = write_cells(s, t, value, to.cells, 1);
    let end = cells.next;
    put_entry(
        t,
        to.entry,
        [ASSIGN, name.value, to.cells as u32, cells.value as u32, 0],
    );
    WrittenLine {
        holds: Holds::Instruction(2 * cells.value),
        next: end,
    }
}

// "`A|n|d|e` puts a waiting write of e on n, d milliseconds from now; d is an expression too."
pub fn write_schedule(s: &[u8], t: &mut [u32], place: Place, stop: u8, to: Target) -> WrittenLine
    requires { Writable s.now place to.entry to.cells (Good (rest_at read_schedule s.now place stop)) }
    ensures { WritesRest read_schedule s.now place stop to.entry to.cells t.old t.new result }
{
    let name = word_field(s, place, stop);
    let delay = name.next;
    let delay_cells = write_cells(s, t, delay, to.cells, 1);
    let value = delay_cells.next;
    let value_cells = write_cells(s, t, value, to.cells + 2 * delay_cells.value, 1);
    let end = value_cells.next;
    put_entry(
        t,
        to.entry,
        [
            SCHEDULE,
            name.value,
            to.cells as u32,
            delay_cells.value as u32,
            value_cells.value as u32,
        ],
    );
    WrittenLine {
        holds: Holds::Instruction(2 * delay_cells.value + 2 * value_cells.value),
        next: end,
    }
}

// "`U|e|k` goes to instruction k if e is 0."
pub fn write_branch(s: &[u8], t: &mut [u32], place: Place, stop: u8, to: Target) -> WrittenLine
    requires { Writable s.now place to.entry to.cells (Good (rest_at read_branch s.now place stop)) }
    ensures { WritesRest read_branch s.now place stop to.entry to.cells t.old t.new result }
{
    let cells = write_cells(s, t, place, to.cells, 1);
    let target = cells.next;
    let jump = word_field(s, target, cells.stop);
    let end = jump.next;
    put_entry(
        t,
        to.entry,
        [BRANCH, jump.value, to.cells as u32, cells.value as u32, 0],
    );
    WrittenLine {
        holds: Holds::Instruction(2 * cells.value),
        next: end,
    }
}

// "`G|k` goes to k."
pub fn write_jump(s: &[u8], t: &mut [u32], place: Place, stop: u8, to: Target) -> WrittenLine
    requires { Writable s.now place to.entry to.cells (Good (rest_at read_jump s.now place stop)) }
    ensures { WritesRest read_jump s.now place stop to.entry to.cells t.old t.new result }
{
    let jump = word_field(s, place, stop);
    let end = jump.next;
    put_entry(t, to.entry, [JUMP, jump.value, to.cells as u32, 0, 0]);
    WrittenLine {
        holds: Holds::Instruction(0),
        next: end,
    }
}

// "`W|n n ..` waits on 1 to 4 names."
pub fn write_wait(s: &[u8], t: &mut [u32], place: Place, stop: u8, to: Target) -> WrittenLine
    requires { Writable s.now place to.entry to.cells (Good (rest_at read_wait s.now place stop)) }
    ensures { WritesRest read_wait s.now place stop to.entry to.cells t.old t.new result }
{
    let cells = write_cells(s, t, place, to.cells, 0);
    let end = cells.next;
    put_entry(
        t,
        to.entry,
        [WAIT, 0, to.cells as u32, cells.value as u32, 0],
    );
    WrittenLine {
        holds: Holds::Instruction(2 * cells.value),
        next: end,
    }
}

// "`E` ends the routine."
pub fn write_end(s: &[u8], t: &mut [u32], place: Place, stop: u8, to: Target) -> WrittenLine
    requires { Writable s.now place to.entry to.cells (Good (rest_at read_end s.now place stop)) }
    ensures { WritesRest read_end s.now place stop to.entry to.cells t.old t.new result }
{
    put_entry(t, to.entry, [END, 0, to.cells as u32, 0, 0]);
    WrittenLine {
        holds: Holds::Instruction(0),
        next: place,
    }
}
