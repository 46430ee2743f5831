// A line, from its letter to the line feed.
ghost use Rattle.std.specs.Prelude.{◌≡◌, ◌≤◌, length};
ghost use Rattle.text_place.specs.Texts.{Within};
ghost use Rattle.text_jumps.specs.Records.{stand_ins};
ghost use Rattle.text_records.specs.Lines.{line_answer, stands_on};

use crate::record::read_rest;
use text_fields::Read;
use text_jumps::{Record, Scope};
use text_place::{Place, take_piece};

// A line's record, the byte that closes the line, and the place past it.
pub fn read_line(s: &[u8], place: Place, scope: Scope, arguments: &[u8]) -> Option<Read<Record>>
    requires { Within s.now place.offset place.line × (length arguments.now ≤ 64) }
    ensures { result ≡ line_answer (stand_ins arguments.now) scope s.now place }
{
    let letter = take_piece(s, place);
    if letter.stop == b' ' {
        return None;
    }
    let from = letter.from;
    if letter.to - from != 1 {
        return None;
    }
    read_rest(s, letter.next, letter.stop, s[from], scope, arguments)
}

// Whether a record may stand on a line. Document 01: "By form `P` stands on line 1 only, and line 2, if any, is an `R`."
pub fn may_stand_on(line: usize, r: Record) -> bool
    ensures { result ≡ stands_on line r }
{
    match r {
        Record::Ports(_, _) => line == 1,
        Record::Opens(_, _, _) => 2 <= line,
        Record::Instruction(_, _, _) => 3 <= line,
    }
}
