// Question 4. Document 01: "Does every name, routine, jump and argument count point to something there? Is main as stated
// (place: its `R`, or 1 without one)?"
ghost use Rattle.std.specs.Prelude.{◌≡◌, ◌+◌, min, length, drop};
ghost use Rattle.listing.specs.Listing.{code_of};
ghost use Rattle.listing.specs.Questions.{place2, place3, place4};
ghost use Rattle.text_records.specs.Lines.{some_place};
ghost use Rattle.text_records.specs.Onward.{Formed, records_from};
ghost use Rattle.text_survey.specs.Surveys.{answers_here, moved_here_lem};

use crate::routines::{code_length, few, survey_routines};
use text_jumps::{Record, Scope};
use text_main::{Here, is_stated};
use text_place::Place;
use text_records::read_line;

fn answers(here: Here, r: Record) -> bool
    ensures { result ≡ answers_here here r }
{
    match r {
        Record::Ports(_, _) => true,
        Record::Opens(arguments, _, by_reference) => is_stated(here, arguments, by_reference),
        Record::Instruction(_, there, _) => there,
    }
}

fn small(n: usize) -> u16
    ensures { result ≡ min n 1000 }
{
    n.min(1000) as u16
}

// Past a record, the next line at a place.
fn moved(s: &[u8], here: Here, r: Record, next: Place) -> Here
    requires { Formed s.now next.offset next.line }
    ensures { result ≡ moved_here_lem (length (code_of (records_from next.line (drop next.offset s.now)))) here r }
{
    match r {
        Record::Ports(i, o) => Here {
            inputs: i,
            outputs: o,
            ..here
        },
        Record::Opens(arguments, locals, _) => {
            let size = small(code_length(s, next));
            Here {
                unopened: false,
                names: few(arguments) + few(locals),
                size,
                ..here
            }
        }
        Record::Instruction(_, _, _) => here,
    }
}

// The first line that points to nothing, if there is one.
pub fn there_place(s: &[u8]) -> Option<usize>
    requires { (place2 s.now ≡ 0) × (place3 s.now ≡ 0) }
    ensures { result ≡ some_place (place4 s.now) }
{
    let survey = survey_routines(s);
    let routines = usize::from(survey.routines);
    let counts = survey.counts;
    if routines == 0 {
        return Some(1);
    }
    let mut here = Here {
        inputs: 0,
        outputs: 0,
        unopened: true,
        names: 0,
        size: 0,
    };
    let mut at = Place { offset: 0, line: 1 };
    while at.offset < s.len() {
        let scope = Scope {
            names: here.names,
            size: here.size,
        };
        let read = read_line(s, at, scope, &counts[..routines])?;
        if !answers(here, read.value) {
            return Some(at.line);
        }
        here = moved(s, here, read.value, read.next);
        at = read.next;
    }
    None
}
