// Texts of a test program's report, put into lent bytes; and the bytes of a file.
ghost use Rattle.std.specs.Prelude.{◌≡◌, ◌+◌, ◌≤◌, length};
ghost use Rattle.session_print.specs.Puts.{Puts};
ghost use Rattle.streams.specs.Counts.{IsPrefixLen};
ghost use Rattle.test_cases.specs.Summaries.{summary};

use session_print::figure::{put_byte, put_figure};
use std::fs::Files;
use std::io::Stderr;
use streams::{open, read_full, say_failed};

// A text put into lent bytes at a place; the place past it.
pub fn put_text(out: &mut [u8], at: usize, text: &[u8]) -> usize
    requires { (at ≤ 100000) × (length text.now ≤ 100000) }
    ensures { Puts out.old at text.now out.new result × (result ≡ at + length text.now) }
{
    for (k, b) in text.iter().enumerate() {
        put_byte(out, at + k, *b);
    }
    at + text.len()
}

// How many cases there were, and how many of them failed.
#[derive(Clone, Copy, Debug, PartialEq, Eq)]
pub struct Tally {
    pub cases: u64,
    pub failed: u64,
}

// The last line of a report, put into lent bytes: a title, and how many cases agree, or else how many of them do not. How many bytes.
pub fn put_summary(out: &mut [u8], title: &[u8], tally: Tally) -> usize
    requires { (length title.now ≤ 100) × (200 ≤ length out.old) }
    ensures { Puts out.old 0 (summary title.now tally.cases tally.failed) out.new result × IsPrefixLen result out.new }
{
    let a = put_text(out, 0, title);
    if tally.failed == 0 {
        let b = put_figure(out, a, tally.cases);
        return put_text(out, b, b" cases agree\n");
    }
    let b = put_figure(out, a, tally.failed);
    let c = put_text(out, b, b" of ");
    let d = put_figure(out, c, tally.cases);
    put_text(out, d, b" cases fail\n")
}

// Memory for a file of stored cases.
pub fn stored_cases() -> [u8; 300000]
    ensures { 300000 ≡ length result }
{
    [0; 300000]
}

// The bytes of a file, as many as the buffer holds; none if it cannot be opened, which is then said.
pub fn read_file<R: Files>(files: &R, errors: Stderr, path: &[u8], buffer: &mut [u8]) -> usize
    ensures { IsPrefixLen result buffer.new × (length buffer.new ≡ length buffer.old) }
{
    match open(files, path) {
        Ok(mut file) => read_full(&mut file, buffer),
        Err(why) => {
            say_failed(&errors, path, why);
            0
        }
    }
}
