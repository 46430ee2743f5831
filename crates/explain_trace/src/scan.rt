// The first line of a trace that a session would refuse.
ghost use Rattle.std.specs.Prelude.{◌≡◌, eqb, ◌+◌, ◌≤◌, length, drop};
ghost use Rattle.walk.specs.Trace.{read_trace_line};
ghost use Rattle.explain_parts.specs.Parts.{first_part_lem, part_end};
ghost use Rattle.explain_trace.specs.Scans.{number_why, input_why, field_for, judge_input, judge_last, unformed, judge_line, end_fault, fault_of};

use crate::form::form_fault;
use crate::reasons::Reason;
use explain_fields::{Fault, Spot, about};
use explain_parts::part_end;
use session_trace_lines::{TraceLine, read_trace_line};
use text_place::Place;

// The line, from 1, and what is wrong in it.
#[derive(Clone, Copy)]
pub struct TraceFault<R> {
    pub line: usize,
    pub fault: Fault<R>,
}

// After a line: the time of its call, and the least number that may come next in it; or the end, with the fault if there is one.
#[derive(Clone, Copy)]
pub enum Judged {
    Goes(u64, u64),
    Ends(Option<TraceFault<Reason>>),
}

// Why a call of which the next number is at least `least` has no such input.
fn number_why(inputs: u64, least: u64, number: u64) -> Option<Reason>
    ensures { result ≡ number_why inputs least number }
{
    if number >= inputs {
        return Some(Reason::NoInput(inputs));
    }
    if number < least {
        return Some(Reason::NotRising(least));
    }
    None
}

// Why an input may not come after a call at `time`.
fn input_why(inputs: u64, time: u64, least: u64, t: u64, number: u64) -> Option<Reason>
    ensures { result ≡ input_why inputs time least t number }
{
    if t > time {
        return number_why(inputs, 0, number);
    }
    if t < time {
        return Some(Reason::NotAfter(time));
    }
    if t == 0 {
        return Some(Reason::NotAfter(time));
    }
    number_why(inputs, least, number)
}

// The field that a reason is about: the time, or the input's number.
fn field_for(why: Reason) -> usize
    ensures { result ≡ field_for why }
{
    match why {
        Reason::NotAfter(_) => 2,
        _ => 3,
    }
}

// An input's line.
fn judge_input(line: usize, inputs: u64, time: u64, least: u64, t: u64, number: u32) -> Judged
    ensures { result ≡ judge_input line inputs time least t number }
{
    let n = number as u64;
    match input_why(inputs, time, least, t, n) {
        Some(why) => {
            let spot = Spot::Field(field_for(why));
            let fault = Fault { why, spot };
            Judged::Ends(Some(TraceFault { line, fault }))
        }
        None => Judged::Goes(t, n + 1),
    }
}

// The last line, and whether nothing stands after it.
fn judge_last(line: usize, nothing_after: bool) -> Judged
    requires { line ≤ 100001 }
    ensures { result ≡ judge_last line nothing_after }
{
    if nothing_after {
        return Judged::Ends(None);
    }
    Judged::Ends(Some(TraceFault {
        line: line + 1,
        fault: about(Reason::AfterLast),
    }))
}

// A line out of form; another reason if its form tells none.
fn unformed(line: usize, bytes: &[u8], other: Reason) -> TraceFault<Reason>
    requires { length bytes.now ≤ 100000 }
    ensures { result ≡ unformed line bytes.now other }
{
    match form_fault(bytes) {
        Some(fault) => TraceFault { line, fault },
        None => TraceFault {
            line,
            fault: about(other),
        },
    }
}

// The line from one offset up to another, after a call at `time`.
fn judge_line(
    trace: &[u8],
    at: usize,
    end: usize,
    line: usize,
    inputs: u64,
    time: u64,
    least: u64,
) -> Judged
    requires { (at ≤ end) × (end ≤ length trace.now) × (end ≡ part_end 10 trace.now at) × (length trace.now ≤ 100000) × (line ≤ 100001) }
    ensures { result ≡ judge_line inputs line (first_part_lem 10 (drop at trace.now)) (eqb (end + 1) (length trace.now)) time least
        (read_trace_line (first_part_lem 10 (drop at trace.now))) }
{
    let read = read_trace_line(
        trace,
        Place {
            offset: at,
            line: 0,
        },
    );
    match read {
        TraceLine::Input(t, number, _, _, _) => {
            judge_input(line, inputs, time, least, t, number)
        }
        TraceLine::Last(_, _, _) => judge_last(line, end + 1 == trace.len()),
        TraceLine::Bad => Judged::Ends(Some(unformed(line, &trace[at..end], Reason::NoForm))),
    }
}

// What comes after the last line feed.
fn end_fault(line: usize, bytes: &[u8]) -> TraceFault<Reason>
    requires { length bytes.now ≤ 100000 }
    ensures { result ≡ end_fault line bytes.now }
{
    if bytes.len() == 0 {
        return TraceFault {
            line,
            fault: about(Reason::NoLast),
        };
    }
    unformed(line, bytes, Reason::NoLineFeed)
}

// The first line that a session on a listing of so many inputs would refuse; none if it would play them all.
pub fn trace_fault(trace: &[u8], inputs: u64) -> Option<TraceFault<Reason>>
    requires { length trace.now ≤ 100000 }
    ensures { result ≡ fault_of inputs trace.now }
{
    let mut at: usize = 0;
    let mut line: usize = 1;
    let mut time: u64 = 0;
    let mut least: u64 = 0;
    loop {
        let end = part_end(trace, b'\n', at);
        if end == trace.len() {
            return Some(end_fault(line, &trace[at..end]));
        }
        let judged = judge_line(trace, at, end, line, inputs, time, least);
        match judged {
            Judged::Ends(fault) => {
                return fault;
            }
            Judged::Goes(t, next) => {
                time = t;
                least = next;
            }
        }
        at = end + 1;
        line += 1;
    }
}
