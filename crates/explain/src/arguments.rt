// The arguments, one after another.
ghost use Rattle.std.specs.Prelude.{◌≡◌, ◌≤◌};
ghost use Rattle.session_print.specs.Puts.{Puts};
ghost use Rattle.explain.specs.Arguments.{is_flag, held_after, WordSaid, at_end};

use crate::traced::put_traced;
use explain_listing::said::{put_file, put_usage};
use std::fs::Files;
use std::io::Stderr;

// Between two arguments: the number of the listing's, if there is one yet; and whether a trace comes next.
#[derive(Clone, Copy, Debug, PartialEq, Eq)]
pub struct Held {
    pub listing: Option<usize>,
    pub flagged: bool,
}

// Is it `-t`?
fn is_flag(word: &[u8]) -> bool
    ensures { result ≡ is_flag word.now }
{
    if word.len() != 2 {
        return false;
    }
    if word[0] != b'-' {
        return false;
    }
    word[1] == b't'
}

// What is held after argument number k, this word.
pub fn held_after(k: usize, word: &[u8], held: Held) -> Held
    ensures { result ≡ held_after k word.now held }
{
    let listing = held.listing;
    if held.flagged {
        return Held {
            listing,
            flagged: false,
        };
    }
    if is_flag(word) {
        return Held {
            listing,
            flagged: true,
        };
    }
    Held {
        listing: Some(k),
        flagged: false,
    }
}

// What is said at a word, on the listing that an argument names; how many bytes.
pub fn put_word<R: Files>(
    files: &R,
    errors: Stderr,
    out: &mut [u8],
    word: &[u8],
    name: &[u8],
    held: Held,
) -> usize
    ensures { WordSaid held word.now name.now out.old out.new result × (result ≤ 50000) }
{
    if held.flagged {
        return match held.listing {
            Some(_) => put_traced(files, errors, out, word, name),
            None => put_usage(out),
        };
    }
    if is_flag(word) {
        return 0;
    }
    put_file(files, errors, out, word)
}

// How to call the program, if a trace is still to come or there was no argument; how many bytes.
pub fn put_end(out: &mut [u8], count: usize, held: Held) -> usize
    ensures { Puts out.old 0 (at_end count held) out.new result × (result ≤ 2000) }
{
    if held.flagged {
        return put_usage(out);
    }
    if count < 2 {
        return put_usage(out);
    }
    0
}
