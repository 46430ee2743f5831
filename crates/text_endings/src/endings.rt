// Question 5. Document 01: "Has every routine a line (place: its `R`), the last being `E` or `G`?"
ghost use Rattle.std.specs.Prelude.{◌≡◌};
ghost use Rattle.listing.specs.Questions.{place2, place5};
ghost use Rattle.text_records.specs.Lines.{some_place};
ghost use Rattle.text_endings.specs.Endings.{ends_badly, may_end_with};

use text_jumps::{NO_SCOPE, Record};
use text_place::Place;
use text_records::read_line;

// Whether a routine ends before this record, and may not.
fn ends_badly(allowed: bool, r: Record) -> bool
    ensures { result ≡ ends_badly allowed r }
{
    match r {
        Record::Ports(_, _) => false,
        Record::Opens(_, _, _) => !allowed,
        Record::Instruction(_, _, _) => false,
    }
}

// Whether a routine may end with this record.
fn may_end_with(r: Record) -> bool
    ensures { result ≡ may_end_with r }
{
    match r {
        Record::Ports(_, _) => true,
        Record::Opens(_, _, _) => false,
        Record::Instruction(_, _, last) => last,
    }
}

// The first line that a routine ends with and may not, if there is one. A line is judged when the next one is known.
pub fn ending_place(s: &[u8]) -> Option<usize>
    requires { place2 s.now ≡ 0 }
    ensures { result ≡ some_place (place5 s.now) }
{
    let mut may_end = true;
    let mut at = Place { offset: 0, line: 1 };
    while at.offset < s.len() {
        let read = read_line(s, at, NO_SCOPE, &[])?;
        if ends_badly(may_end, read.value) {
            return Some(at.line - 1);
        }
        may_end = may_end_with(read.value);
        at = read.next;
    }
    if may_end {
        return None;
    }
    Some(at.line - 1)
}
