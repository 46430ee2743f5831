// What the program says, put into lent bytes.
ghost use Rattle.std.specs.Prelude.{◌≡◌, ◌+◌, ◌≤◌, length};
ghost use Rattle.session_print.specs.Puts.{Puts};
ghost use Rattle.explain_parts.specs.Shown.{shown};
ghost use Rattle.explain_listing.specs.Said.{rule_line, question_line, headline, reasoned, refusal, named, usage, VerdictSaid, FileSaid};

use crate::verdict::{Refusal, judge, read_listing};
use explain_parts::{part_of, put_shown};
use explain_reasons::reason_at;
use explain_said::{put_fault, put_sentence};
use session_print::figure::{put_byte, put_figure};
use std::fs::Files;
use std::io::Stderr;
use test_cases::report::put_text;

// The questions that the loader puts.
const QUESTIONS: u32 = 5;

// So many bytes of a file's name and of a line are shown.
const NAME_SHOWN: usize = 4096;

const LINE_SHOWN: usize = 120;

// A byte more than a listing may have: a longer file is cut there, and its length alone decides.
pub fn text() -> [u8; 49153]
    ensures { 49153 ≡ length result }
{
    [0; 49153]
}

// The sentences for a question as a line; the place past it.
fn put_rule(out: &mut [u8], at: usize, number: u32) -> usize
    requires { at ≤ 60000 }
    ensures { Puts out.old at (rule_line number) out.new result × (result ≤ at + 301) }
{
    let a = put_sentence(out, at, number);
    put_byte(out, a, b'\n');
    a + 1
}

// The number of a question and its rule, on a line of their own; the place past them.
fn put_question(out: &mut [u8], at: usize, number: u32) -> usize
    requires { at ≤ 50000 }
    ensures { Puts out.old at (question_line number) out.new result × (result ≤ at + 400) }
{
    let a = put_text(out, at, b"\nQuestion ");
    let b = put_figure(out, a, number as u64);
    let c = put_text(out, b, b": ");
    put_rule(out, c, number)
}

// A file's name as it is shown; how many bytes.
fn put_name(out: &mut [u8], path: &[u8]) -> usize
    ensures { Puts out.old 0 (shown 4096 path.now) out.new result × (result ≤ 16386) }
{
    put_shown(out, 0, path, NAME_SHOWN)
}

// The file and the line; how many bytes.
fn put_head(out: &mut [u8], path: &[u8], place: usize) -> usize
    ensures { Puts out.old 0 (headline path.now place) out.new result × (result ≤ 16500) }
{
    let a = put_name(out, path);
    let b = put_text(out, a, b":");
    let c = put_figure(out, b, place as u64);
    put_text(out, c, b": ")
}

// The reason at a line, the line as it is shown, and the rule; the place past them.
fn put_reasoned(
    out: &mut [u8],
    at: usize,
    listing: &[u8],
    number: u32,
    place: usize,
    line: &[u8],
) -> usize
    requires { (at ≤ 20000) × (length listing.now ≤ 49153) × (length line.now ≤ 49153) }
    ensures { Puts out.old at (reasoned listing.now number place line.now) out.new result × (result ≤ at + 6000) }
{
    let fault = reason_at(listing, number, place, line);
    let a = put_fault(out, at, line, fault);
    let b = put_text(out, a, b"\n    ");
    let c = put_shown(out, b, line, LINE_SHOWN);
    put_question(out, c, number)
}

// A question that fails: where, why, and its rule; how many bytes.
fn put_refusal(out: &mut [u8], path: &[u8], listing: &[u8], number: u32, place: usize) -> usize
    requires { length listing.now ≤ 49153 }
    ensures { Puts out.old 0 (refusal path.now listing.now number place) out.new result × (result ≤ 50000) }
{
    let a = put_head(out, path, place);
    let line = part_of(listing, b'\n', place.saturating_sub(1));
    put_reasoned(out, a, listing, number, place, line)
}

// A file's name and what is said of it; how many bytes.
pub fn put_named(out: &mut [u8], path: &[u8], text: &[u8]) -> usize
    requires { length text.now ≤ 200 }
    ensures { Puts out.old 0 (named path.now text.now) out.new result × (result ≤ 50000) }
{
    let a = put_name(out, path);
    put_text(out, a, text)
}

// What loading says of a listing; how many bytes.
fn put_verdict(out: &mut [u8], path: &[u8], listing: &[u8]) -> usize
    requires { length listing.now ≤ 49153 }
    ensures { VerdictSaid path.now listing.now out.old out.new result }
{
    match judge(listing) {
        Ok(()) => put_named(out, path, b": It loads.\n"),
        Err(Refusal::TooLong) => put_named(
            out,
            path,
            b": The file is too long: a listing has at most 49,152 bytes. A session ends with code 3.\n",
        ),
        Err(Refusal::Fails(number, place)) => put_refusal(out, path, listing, number, place),
    }
}

// What loading says of a file, if it can be read; how many bytes.
pub fn put_file<R: Files>(files: &R, errors: Stderr, out: &mut [u8], path: &[u8]) -> usize
    ensures { FileSaid path.now out.old out.new result × (result ≤ 50000) }
{
    let mut bytes = text();
    match read_listing(files, errors, path, &mut bytes) {
        Some(count) => put_verdict(out, path, &bytes[..count]),
        None => 0,
    }
}

// How to call the program: all rules, in the order in which they are asked; how many bytes.
pub fn put_usage(out: &mut [u8]) -> usize
    ensures { Puts out.old 0 usage out.new result × (result ≤ 2000) }
{
    let mut at = put_text(
        out,
        0,
        b"usage: explain LISTING [-t TRACE] ..\nLISTING and TRACE are files. A listing is loaded only if all of these hold, asked in this order:\n",
    );
    for done in 0..QUESTIONS {
        let a = put_figure(out, at, (done + 1) as u64);
        put_byte(out, a, b' ');
        at = put_rule(out, a + 1, done + 1);
    }
    at
}
