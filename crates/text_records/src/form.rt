// Question 2. Document 01: "Has every line its form, and does the last end in a line feed? An empty listing: place 1."
ghost use Rattle.std.specs.Prelude.{◌≡◌};
ghost use Rattle.listing.specs.Questions.{place2};
ghost use Rattle.text_records.specs.Lines.{some_place};

use crate::line::{may_stand_on, read_line};
use text_jumps::NO_SCOPE;
use text_place::Place;

// The first line out of form, if there is one.
pub fn form_place(s: &[u8]) -> Option<usize>
    ensures { result ≡ some_place (place2 s.now) }
{
    let mut at = Place { offset: 0, line: 1 };
    while at.offset < s.len() {
        let Some(read) = read_line(s, at, NO_SCOPE, &[]) else {
            return Some(at.line);
        };
        if read.stop != b'\n' {
            return Some(at.line);
        }
        if !may_stand_on(at.line, read.value) {
            return Some(at.line);
        }
        at = read.next;
    }
    if at.line == 1 {
        return Some(1);
    }
    None
}
