// The routines of a listing: how many arguments each takes, and how many instructions follow an `R`.
ghost use Rattle.std.specs.Prelude.{◌≡◌, ◌≤◌, min, ltb, length, drop};
ghost use Rattle.listing.specs.Listing.{code_of};
ghost use Rattle.listing.specs.Questions.{place2, place3, listing_in};
ghost use Rattle.text_records.specs.Onward.{Formed, records_from};
ghost use Rattle.text_survey.specs.Surveys.{SurveyFits, survey_of, survey_opens, survey_one, is_instruction};

use text_jumps::{NO_SCOPE, Record};
use text_place::Place;
use text_records::read_line;

// How many arguments each routine takes, 0 behind the last, and the number of routines.
// An array with its count: there is no heap, and the memory is fixed. Those who ask are lent the part in use.
#[derive(Clone, Copy)]
pub struct Survey {
    pub counts: [u8; 64],
    pub routines: u8,
}

// A number that the limits keep small, as a byte.
pub fn few(n: u64) -> u8
    ensures { result ≡ min n 100 }
{
    n.min(100) as u8
}

// The survey with one routine more, while there is room.
fn with_routine(survey: Survey, arguments: u64) -> Survey
    requires { SurveyFits survey }
    ensures { result ≡ survey_opens survey arguments (ltb survey.routines 64) }
{
    if 64 <= survey.routines {
        return survey;
    }
    let at = usize::from(survey.routines);
    let mut counts = survey.counts;
    counts[at] = few(arguments);
    Survey {
        counts,
        routines: survey.routines + 1,
    }
}

// The survey with one line more.
fn with_line(survey: Survey, r: Record) -> Survey
    requires { SurveyFits survey }
    ensures { result ≡ survey_one survey r }
{
    match r {
        Record::Ports(_, _) => survey,
        Record::Opens(arguments, _, _) => with_routine(survey, arguments),
        Record::Instruction(_, _, _) => survey,
    }
}

// The routines of the whole listing.
pub fn survey_routines(s: &[u8]) -> Survey
    requires { (place2 s.now ≡ 0) × (place3 s.now ≡ 0) }
    ensures { result ≡ survey_of (listing_in s.now) }
{
    let mut survey = Survey {
        counts: [0u8; 64],
        routines: 0,
    };
    let mut at = Place { offset: 0, line: 1 };
    while at.offset < s.len() {
        let Some(read) = read_line(s, at, NO_SCOPE, &[]) else {
            return survey;
        };
        survey = with_line(survey, read.value);
        at = read.next;
    }
    survey
}

// Whether a record is an instruction.
fn is_instruction(r: Record) -> bool
    ensures { result ≡ is_instruction r }
{
    matches!(r, Record::Instruction(_, _, _))
}

// The instructions from a line on, up to the next `R`.
pub fn code_length(s: &[u8], place: Place) -> usize
    requires { Formed s.now place.offset place.line }
    ensures { result ≡ length (code_of (records_from place.line (drop place.offset s.now))) }
{
    let mut at = place;
    let mut count: usize = 0;
    while at.offset < s.len() {
        let Some(read) = read_line(s, at, NO_SCOPE, &[]) else {
            return count;
        };
        if !is_instruction(read.value) {
            return count;
        }
        count += 1;
        at = read.next;
    }
    count
}
