// A schedule explained.
ghost use Rattle.std.specs.Prelude.{◌+◌, ◌-◌, ◌≤◌, length};
ghost use Rattle.session_print.specs.Puts.{Puts};
ghost use Rattle.explain_parts.specs.Parts.{part_of};
ghost use Rattle.explain_schedule.specs.Faults.{fault_at};
ghost use Rattle.explain_schedule_said.specs.Said.{told_line, refused_text, plain_text, schedule_text};

use crate::reason::{put_fault, put_question};
use explain_fields::Fault;
use explain_parts::{part_of, put_shown};
use explain_schedule::{Reason, reason_at, refused_line};
use explain_trace_said::put_place;
use test_cases::report::put_text;

// So many bytes of a file's name and of a line are shown.
const NAME_SHOWN: usize = 4096;

const LINE_SHOWN: usize = 120;

// So many bytes of a schedule are read.
const LONGEST: usize = 49152;

// The reason at a line, the line as it is shown, and the rule; the place past them.
fn put_told(out: &mut [u8], at: usize, line: &[u8], fault: Option<Fault<Reason>>) -> usize
    requires { at ≤ 20000 }
    ensures { Puts out.old at (told_line line.now fault) out.new result × (result ≤ at + 6000) }
{
    let a = put_fault(out, at, line, fault);
    let b = put_text(out, a, b"\n    ");
    let c = put_shown(out, b, line, LINE_SHOWN);
    put_question(out, c)
}

// The reason at a place, whose line is lent too; the place past it.
fn put_reasoned(out: &mut [u8], at: usize, text: &[u8], place: usize, line: &[u8]) -> usize
    requires { (at ≤ 20000) × (length text.now ≤ 49153) × (length line.now ≤ 49153) }
    ensures { Puts out.old at (told_line line.now (fault_at text.now place line.now)) out.new result
        × (result ≤ at + 6000) }
{
    let fault = reason_at(text, place, line);
    put_told(out, at, line, fault)
}

// A refusal: where, why, and its rule; how many bytes.
fn put_refused(out: &mut [u8], path: &[u8], text: &[u8], place: usize) -> usize
    requires { length text.now ≤ 49153 }
    ensures { Puts out.old 0 (refused_text path.now text.now place
        (fault_at text.now place (part_of 10 text.now (place - 1)))) out.new result × (result ≤ 50000) }
{
    let a = put_place(out, 0, path, NAME_SHOWN, place);
    let line = part_of(text, b'\n', place.saturating_sub(1));
    put_reasoned(out, a, text, place, line)
}

// A file's name and what is said of it; how many bytes.
fn put_plain(out: &mut [u8], path: &[u8], said: &[u8]) -> usize
    requires { length said.now ≤ 200 }
    ensures { Puts out.old 0 (plain_text path.now said.now) out.new result × (result ≤ 50000) }
{
    let a = put_shown(out, 0, path, NAME_SHOWN);
    put_text(out, a, said)
}

// What is said of a schedule; how many bytes.
pub fn put_schedule(out: &mut [u8], path: &[u8], text: &[u8]) -> usize
    requires { length text.now ≤ 49153 }
    ensures { Puts out.old 0 (schedule_text path.now text.now) out.new result × (result ≤ 50000) }
{
    if text.len() > LONGEST {
        return put_plain(
            out,
            path,
            b": The file is too long: explain reads at most 49,152 bytes of a schedule.\n",
        );
    }
    let place = refused_line(text);
    if place == 0 {
        return put_plain(out, path, b": It fits.\n");
    }
    put_refused(out, path, text, place)
}
