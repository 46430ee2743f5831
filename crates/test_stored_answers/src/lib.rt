// The answer stored for a call: number, steps, outputs listed, 1 if a moment is due or else 0, that moment, a number and a value for each output.
#![tactic(auto)]

pub mod inputs;
pub mod reports;

ghost use Rattle.std.specs.Prelude.{◌≡◌};
ghost use Rattle.test_cases.specs.Words.{Tells};
ghost use Rattle.test_stored_answers.specs.Pairs.{fitting, PairsPut};
ghost use Rattle.test_stored_answers.specs.Answers.{AnswerAt, unlisted, AnswerRight};

use crate::inputs::read_pairs;
use crate::reports::put_reports;
use std::io::Stdout;
use streams::{buffer, say};
use test_cases::frame::{moment_at, past, word_at};
use test_lending::machine::PATTERN;

// The words of an answer before its outputs.
pub const ANSWER: usize = 24;

// The number, the steps used, the outputs listed, and the next moment due, or 0 if none is (a moment due is at least 1): as the file has
// them (AnswerAt).
#[derive(Clone, Copy, Debug, PartialEq, Eq)]
pub struct Report {
    pub number: u32,
    pub steps: u32,
    pub listed: u32,
    pub due: u64,
}

// The answer stored at a place: number, steps, outputs listed, whether a moment is due, and that moment or 0.
fn answer_at(s: &[u8], at: usize) -> Report
    ensures { AnswerAt s.now at result }
{
    let number = word_at(s, at);
    let steps = word_at(s, past(s, at, 4));
    let listed = word_at(s, past(s, at, 8));
    let due = moment_at(s, past(s, at, 16));
    Report {
        number,
        steps,
        listed,
        due,
    }
}

// Do two lists that held nothing but the pattern now begin with so many pairs of the file, and hold the pattern after them?
fn outputs_right(s: &[u8], at: usize, listed: u32, numbers: &[u32], values: &[u32]) -> bool
    ensures { Tells result (PairsPut s.now at (fitting listed unlisted unlisted) unlisted unlisted numbers.now values.now) }
{
    let mut stored_numbers = [PATTERN; 20];
    let mut stored_values = [PATTERN; 20];
    let count = listed as usize;
    read_pairs(s, at, count, &mut stored_numbers, &mut stored_values);
    numbers == stored_numbers.as_slice() && values == stored_values.as_slice()
}

// Is the answer of a call the one stored, with the outputs listed, and are all other places as they were? If not it says so.
pub fn answer_right(
    stdout: Stdout,
    s: &[u8],
    at: usize,
    found: Report,
    numbers: &[u32],
    values: &[u32],
) -> bool
    ensures { Tells result (AnswerRight s.now at found numbers.now values.now) }
{
    let expected = answer_at(s, at);
    if expected != found {
        let mut out = buffer();
        let n = put_reports(&mut out, expected, found);
        say(&stdout, &out[..n]);
        return false;
    }
    let right = outputs_right(s, past(s, at, ANSWER), found.listed, numbers, values);
    if !right {
        say(&stdout, b"the output lists are not as they must be\n");
    }
    right
}
