// Any item of a case.
ghost use Rattle.std.specs.Prelude.{◌≡◌};
ghost use Rattle.test_stored_items.specs.Items.{after_call, after_item, RanItem};

use crate::calls::run_spoilt;
use std::io::Stdout;
use test_cases::frame::{past, word_at};
use test_cases::memories::copy;
use test_stored_answers::ANSWER;
use test_stored_calls::calls::{answer_place, call_at};
use test_stored_comparisons::compare_spoilt;

// The place after the call at a place.
fn after_call(s: &[u8], at: usize) -> usize
    ensures { result ≡ after_call s.now at }
{
    let call = call_at(s, at);
    let answer = answer_place(s, call);
    let listed = word_at(s, past(s, answer, 8)) as usize;
    past(s, past(s, answer, ANSWER), listed * 8)
}

// The place after the item at a place.
pub fn after_item(s: &[u8], at: usize) -> usize
    ensures { result ≡ after_item s.now at }
{
    let kind = word_at(s, at);
    if kind < 2 {
        return after_call(s, at);
    }
    if kind == 2 {
        return past(s, at, 4);
    }
    past(s, at, 12)
}

// Runs the item at a place, and answers whether all was as stored.
pub fn run_item(
    stdout: Stdout,
    s: &[u8],
    at: usize,
    table: &mut [u32],
    machine: &mut [u32],
    kept: &mut [u32],
) -> bool
    ensures { (table.new ≡ table.old)
        × RanItem s.now at table.old machine.old kept.old machine.new kept.new result }
{
    let kind = word_at(s, at);
    if kind < 2 {
        return run_spoilt(stdout, s, at, table, machine);
    }
    if kind == 2 {
        copy(machine, kept);
        return true;
    }
    compare_spoilt(s, at, table, machine, kept)
}
