// The calls that a trace asks for, one at a time.
ghost use Rattle.std.specs.Prelude.{◌≡◌, ◌≤◌, length};
ghost use Rattle.session_trace.specs.Groups.{ended_by, Put, JoinsIs, NextRead};

use session_trace_lines::{TraceLine, read_trace_line};
use text_place::Place;

// What is next in a trace.
#[derive(Clone, Copy)]
pub enum Next {
    // the time of a call, how many of its inputs were put into the lists, and the offset of the line after its last
    Call(u64, usize, usize),
    // the time of the last line, and whether nothing stands after it
    Last(u64, bool),
    // a line out of form, or none
    Broken,
}

// A further input of a call: its number and value, and the offset of the line after it.
#[derive(Clone, Copy)]
pub struct Joined {
    pub number: u32,
    pub value: u32,
    pub past: usize,
}

// What a line that is no input makes of a trace of so many bytes.
fn ended(length: usize, line: TraceLine) -> Next
    ensures { result ≡ ended_by length line }
{
    let TraceLine::Last(time, stop, next) = line else {
        return Next::Broken;
    };
    if stop == b'\n' {
        return Next::Last(time, next.offset == length);
    }
    Next::Broken
}

// Puts an input into the lists, unless 17 are there: 17 rising numbers below 16 do not exist. Answers how many are there then.
fn put_input(
    numbers: &mut [u32],
    values: &mut [u32],
    count: usize,
    number: u32,
    value: u32,
) -> usize
    requires { (count ≤ 17) × (17 ≤ length numbers.old) × (17 ≤ length values.old) }
    ensures { Put count number value numbers.old values.old numbers.new values.new result }
{
    if count < 17 {
        numbers[count] = number;
        values[count] = value;
        return count + 1;
    }
    count
}

// The line at an offset, if it is a further input of the call of that time.
fn joining(trace: &[u8], at: usize, time: u64) -> Option<Joined>
    requires { at ≤ length trace.now }
    ensures { JoinsIs trace.now at time result }
{
    let TraceLine::Input(t, number, value, stop, next) = read_trace_line(
        trace,
        Place {
            offset: at,
            line: 0,
        },
    ) else {
        return None;
    };
    if stop != b'\n' {
        return None;
    }
    if t == time {
        let past = next.offset;
        return Some(Joined {
            number,
            value,
            past,
        });
    }
    None
}

// What is next from a line's beginning; the inputs of a call are put into the lists, at most 17 of them, and the words behind them stay.
pub fn next_call(trace: &[u8], at: usize, numbers: &mut [u32], values: &mut [u32]) -> Next
    requires { (at ≤ length trace.now) × (17 ≤ length numbers.old) × (17 ≤ length values.old) }
    ensures { NextRead trace.now at numbers.old values.old numbers.new values.new result }
{
    let line = read_trace_line(
        trace,
        Place {
            offset: at,
            line: 0,
        },
    );
    let TraceLine::Input(time, number, value, stop, after) = line else {
        return ended(trace.len(), line);
    };
    if stop != b'\n' {
        return Next::Broken;
    }
    let mut count = put_input(numbers, values, 0, number, value);
    let mut next = after.offset;
    while let Some(input) = joining(trace, next, time) {
        count = put_input(numbers, values, count, input.number, input.value);
        next = input.past;
    }
    Next::Call(time, count, next)
}
