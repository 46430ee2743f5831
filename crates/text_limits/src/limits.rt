// Question 3. Document 01: "Are the limits met?", and "the place is the line that passes one".
ghost use Rattle.std.specs.Prelude.{◌≡◌};
ghost use Rattle.listing.specs.Questions.{place2, place3};
ghost use Rattle.text_records.specs.Lines.{some_place};

use crate::counts::{Counts, count_line};
use text_jumps::NO_SCOPE;
use text_place::Place;
use text_records::read_line;

// The first line that passes a limit, if there is one.
pub fn limit_place(s: &[u8]) -> Option<usize>
    requires { place2 s.now ≡ 0 }
    ensures { result ≡ some_place (place3 s.now) }
{
    let mut held = Counts {
        routines: 0,
        instructions: 0,
        pieces: 0,
    };
    let mut at = Place { offset: 0, line: 1 };
    while at.offset < s.len() {
        let read = read_line(s, at, NO_SCOPE, &[])?;
        let Some(more) = count_line(held, read.value, read.next.offset) else {
            return Some(at.line);
        };
        held = more;
        at = read.next;
    }
    None
}
