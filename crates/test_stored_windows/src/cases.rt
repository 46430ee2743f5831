// A stored case: a schedule, a span and the lengths of three lists; the figures that a call must give, and the inputs that it must list.
ghost use Rattle.std.specs.Prelude.{◌≡◌, min};
ghost use Rattle.test_cases.specs.Frame.{word_at};
ghost use Rattle.test_stored_windows.specs.Cases.{AskedAt, AnswerAt, CaseAt};

use test_cases::frame::{moment_at, part_at, past, word_at};

// No list that is lent is longer.
pub const PLACES: usize = 100;

// The bytes of what is asked, and of the answer's figures.
const ASKED: usize = 28;

const ANSWER: usize = 16;

// The length of a list that is lent.
fn room_at(s: &[u8], at: usize) -> usize
    ensures { result ≡ min (word_at s.now at) 100 }
{
    PLACES.min(word_at(s, at) as usize)
}

// The span, and the lengths of the lists for moments, inputs and values.
#[derive(Clone, Copy, Debug, PartialEq, Eq)]
struct Asked {
    first: u64,
    end: u64,
    moments: usize,
    inputs: usize,
    values: usize,
}

fn asked_at(s: &[u8], at: usize) -> Asked
    ensures { AskedAt s.now at result }
{
    let first = moment_at(s, at);
    let end = moment_at(s, past(s, at, 8));
    let moments = room_at(s, past(s, at, 16));
    let inputs = room_at(s, past(s, at, 20));
    let values = room_at(s, past(s, at, 24));
    Asked {
        first,
        end,
        moments,
        inputs,
        values,
    }
}

// Number, place, how many inputs are listed; and the first line where question 19 says no, or 0.
#[derive(Clone, Copy, Debug, PartialEq, Eq)]
struct Answer {
    number: u32,
    place: u32,
    listed: u32,
    line: u32,
}

fn answer_at(s: &[u8], at: usize) -> Answer
    ensures { AnswerAt s.now at result }
{
    let number = word_at(s, at);
    let place = word_at(s, past(s, at, 4));
    let listed = word_at(s, past(s, at, 8));
    let line = word_at(s, past(s, at, 12));
    Answer {
        number,
        place,
        listed,
        line,
    }
}

// A case of the file is its name (a word), its schedule (a part), what is asked, the answer's figures, and of the inputs listed first the
// moments and then the pairs of input and value. Here: where the schedule begins and ends, where moments and pairs stand, and the next case.
#[derive(Clone, Copy, Debug, PartialEq, Eq)]
pub struct Case {
    pub name: u32,
    pub from: usize,
    pub to: usize,
    pub first: u64,
    pub end: u64,
    pub moments: usize,
    pub inputs: usize,
    pub values: usize,
    pub number: u32,
    pub place: u32,
    pub listed: u32,
    pub line: u32,
    pub edges: usize,
    pub pairs: usize,
    pub next: usize,
}

pub fn case_at(s: &[u8], at: usize) -> Case
    ensures { CaseAt s.now at result }
{
    let name = word_at(s, at);
    let part = part_at(s, past(s, at, 4));
    let to = part.to;
    let asked = asked_at(s, to);
    let middle = past(s, to, ASKED);
    let answer = answer_at(s, middle);
    let edges = past(s, middle, ANSWER);
    let bytes = answer.listed as usize * 8;
    let pairs = past(s, edges, bytes);
    let next = past(s, pairs, bytes);
    Case {
        name,
        from: part.from,
        to,
        first: asked.first,
        end: asked.end,
        moments: asked.moments,
        inputs: asked.inputs,
        values: asked.values,
        number: answer.number,
        place: answer.place,
        listed: answer.listed,
        line: answer.line,
        edges,
        pairs,
        next,
    }
}
