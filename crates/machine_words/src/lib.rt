// Reading the machine's words: numbers, moments, variables and blocks at rest, with the soonest moment due.
// Every function takes the 12,288 words, or an address in them; none changes anything.
// A test that looks for the next moment due on the way gives the soonest found, 0 if there is none; and nothing if it fails. The tests
// of all blocks also keep the soonest of each: place s of 65 is block s's, 64 being the environment's.
#![tactic(auto)]

pub mod due;

ghost use Rattle.std.specs.Prelude.{◌≡◌, ◌+◌, ◌*◌, ◌<◌, ◌≤◌, length, eqb, ltb, cond};
ghost use Rattle.machine.specs.Words.{moment_at, zero_from, variable_rests, variables_rest, block_rests};
ghost use Rattle.machine.specs.Words.{variables_in};
ghost use Rattle.walk.specs.Instant.{due_of_variables};
ghost use Rattle.machine_words.specs.Tests.{test_of, tested};

use due::sooner;
use machine::{MOST_VARIABLES, PRESENT, VARIABLE_WORDS, VARIABLES};
use words::{Moment, all_zero};

// The moment in the two words from `at` on, the low half first: bare, since 0 stands for none in a variable's words.
fn moment_at(m: &[u32], at: usize) -> u64
    requires { at + 1 < length m.now }
    ensures { result ≡ moment_at m.now at }
{
    let low = u64::from(m[at]);
    let high = u64::from(m[at + 1]);
    low + high * 4294967296
}

// The present moment, of words 1 and 2. No other function makes a moment of the machine's words.
pub fn present_moment(m: &[u32]) -> Moment
    requires { 2 < length m.now }
    ensures { result.0 ≡ moment_at m.now 1 }
{
    Moment(moment_at(m, PRESENT))
}

// Are the k words from `at` on 0?
#[tactic(auto, using(crate::proofs::Laws::zero_by_slice))]
pub fn zero_from(m: &[u32], at: usize, k: usize) -> bool
    requires { at + k ≤ length m.now }
    ensures { result ≡ zero_from m.now at k }
{
    all_zero(&m[at..at + k])
}

// Is a waiting write due after the present moment, or is there none and its value 0?
fn due_later(due: u64, value: u32, present: Moment) -> bool
    ensures { result ≡ cond (eqb due 0) (eqb value 0) (ltb present.0 due) }
{
    if due == 0 {
        return value == 0;
    }
    present.0 < due
}

// Is the variable at `at` as an instant leaves it?
#[tactic(auto, unfolding(machine::specs::Words::variable_rests))]
fn variable_rests(m: &[u32], at: usize, present: Moment) -> bool
    requires { at + 6 ≤ length m.now }
    ensures { result ≡ variable_rests present.0 m.now at }
{
    due_later(moment_at(m, at + 2), m[at + 1], present) && zero_from(m, at + 4, 2)
}

// Are the k variables from `at` on as an instant leaves them? With the soonest moment that they are due at.
fn variables_rest(m: &[u32], at: usize, k: usize, present: Moment) -> Option<u64>
    requires { (k ≤ 16) × (at + k * 6 ≤ length m.now) }
    ensures { test_of result ≡ tested (variables_rest present.0 m.now at k) (due_of_variables (variables_in m.now at k)) }
{
    let mut found = 0;
    for i in 0..k {
        let here = at + i * VARIABLE_WORDS;
        if !variable_rests(m, here, present) {
            return None;
        }
        let due = moment_at(m, here + 2);
        found = sooner(found, due);
    }
    Some(found)
}

// Has the block at `at` k variables at rest, and only zeros after them?
pub fn block_rests(m: &[u32], at: usize, k: usize, present: Moment) -> Option<u64>
    requires { at + 184 ≤ length m.now }
    ensures { test_of result ≡ tested (block_rests present.0 m.now at k) (due_of_variables (variables_in m.now (at + 8) k)) }
{
    if MOST_VARIABLES < k {
        return None;
    }
    if !zero_from(
        m,
        at + VARIABLES + k * VARIABLE_WORDS,
        176 - k * VARIABLE_WORDS,
    ) {
        return None;
    }
    variables_rest(m, at + VARIABLES, k, present)
}
