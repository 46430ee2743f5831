// A fork, from its child fields. Document 01: "`F|c|c..` forks 1 to 8 children: each field is a routine number and then its arguments".
ghost use Rattle.std.specs.Prelude.{◌≤◌, length};
ghost use Rattle.listing.specs.Form.{read_fork};
ghost use Rattle.text_place.specs.Texts.{Within};
ghost use Rattle.table_forks.specs.Calls.{WritesCall};
ghost use Rattle.table_instructions.specs.Writable.{Writable};
ghost use Rattle.table_lines.specs.Lines.{Good, rest_at, WritesRest};

use table::FORK;
use table_cells::cell::write_cells;
use table_cells::put::{put, put_entry};
use table_lines::{Holds, Target, WrittenLine};
use text_fields::Read;
use text_place::Place;

// The cells of a child field: a head of its number of arguments and its routine, then the arguments' names.
fn write_call(s: &[u8], t: &mut [u32], place: Place, a: usize) -> Read<usize>
    requires { Within s.now place.offset place.line × (length s.now ≤ 49152) × (a ≤ 800000) }
    ensures { WritesCall s.now place a t.old t.new result }
{
    let cells = write_cells(s, t, place, a, 0);
    put(t, a, (cells.value - 1) as u32);
    cells
}

pub fn write_fork(s: &[u8], t: &mut [u32], place: Place, stop: u8, to: Target) -> WrittenLine
    requires { Writable s.now place to.entry to.cells (Good (rest_at read_fork s.now place stop)) }
    ensures { WritesRest read_fork s.now place stop to.entry to.cells t.old t.new result }
{
    let mut at = place;
    let mut stop = stop;
    let mut count: usize = 0;
    let mut cells: usize = 0;
    while stop == b'\t' {
        let call = write_call(s, t, at, to.cells + 2 * cells);
        cells += call.value;
        count += 1;
        stop = call.stop;
        at = call.next;
    }
    put_entry(t, to.entry, [FORK, 0, to.cells as u32, count as u32, 0]);
    WrittenLine {
        holds: Holds::Instruction(2 * cells),
        next: at,
    }
}
