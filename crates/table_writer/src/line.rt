// A line of a listing that is in form: what it gives the table is written, and what it holds handed back.
ghost use Rattle.listing.specs.Form.{read_by_letter};
ghost use Rattle.table_instructions.specs.Writable.{Writable};
ghost use Rattle.table_lines.specs.Lines.{Good, rest_at, line_at, WritesRest, WritesLine};

use table_forks::write_fork;
use table_instructions::{
    write_assign, write_branch, write_end, write_jump, write_schedule, write_wait,
};
use table_lines::opens::{hold_opens, hold_ports};
use table_lines::{Target, WrittenLine};
use text_place::{Place, take_piece};

// The fields after a line's letter. By question 2 the letter that is left is `E`.
fn write_rest(
    s: &[u8],
    t: &mut [u32],
    place: Place,
    stop: u8,
    letter: u8,
    to: Target,
) -> WrittenLine
    requires { Writable s.now place to.entry to.cells (Good (rest_at (read_by_letter letter) s.now place stop)) }
    ensures { WritesRest (read_by_letter letter) s.now place stop to.entry to.cells t.old t.new result }
{
    match letter {
        b'P' => hold_ports(s, place, stop),
        b'R' => hold_opens(s, place, stop),
        b'S' => write_assign(s, t, place, stop, to),
        b'A' => write_schedule(s, t, place, stop, to),
        b'U' => write_branch(s, t, place, stop, to),
        b'G' => write_jump(s, t, place, stop, to),
        b'W' => write_wait(s, t, place, stop, to),
        b'F' => write_fork(s, t, place, stop, to),
        _ => write_end(s, t, place, stop, to),
    }
}

// The line at a place: an instruction's entry and cells go to their target.
pub fn write_line(s: &[u8], t: &mut [u32], place: Place, to: Target) -> WrittenLine
    requires { Writable s.now place to.entry to.cells (Good (line_at s.now place)) }
    ensures { WritesLine s.now place to.entry to.cells t.old t.new result }
{
    let piece = take_piece(s, place);
    let from = piece.from;
    let rest = piece.next;
    write_rest(s, t, rest, piece.stop, s[from], to)
}
