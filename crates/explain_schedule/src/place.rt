// The first line where question 19 says no, and the reason there.
ghost use Rattle.std.specs.Prelude.{◌≡◌, ◌≤◌, length};
ghost use Rattle.schedule.specs.Form.{place19};
ghost use Rattle.explain_schedule.specs.Faults.{line_fault, unclosed_why, fault_at};

use crate::line::{date_fault, window_fault};
use crate::reasons::Reason;
use explain_fields::{Fault, about};
use explain_parts::count_parts;
use schedule_read::read_schedule;

// The line, from 1; 0 for none.
pub fn refused_line(text: &[u8]) -> usize
    ensures { result ≡ place19 text.now }
{
    let mut week = [0u16; 10080];
    read_schedule(text, &mut week)
}

// Why a line is refused: line 1 is the date's.
fn line_fault(place: usize, line: &[u8]) -> Option<Fault<Reason>>
    requires { length line.now ≤ 100000 }
    ensures { result ≡ line_fault place line.now }
{
    if place == 1 {
        return date_fault(line);
    }
    window_fault(line)
}

// Why a text is not closed.
fn unclosed_why(text: &[u8]) -> Reason
    ensures { result ≡ unclosed_why text.now }
{
    if text.len() == 0 {
        return Reason::NoDate;
    }
    Reason::NoLineFeed
}

// The reason at a place, whose line is lent too.
pub fn reason_at(text: &[u8], place: usize, line: &[u8]) -> Option<Fault<Reason>>
    requires { (length text.now ≤ 100000) × (length line.now ≤ 100000) }
    ensures { result ≡ fault_at text.now place line.now }
{
    if count_parts(text, b'\n') <= place {
        return Some(about(unclosed_why(text)));
    }
    line_fault(place, line)
}
