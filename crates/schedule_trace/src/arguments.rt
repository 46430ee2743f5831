// The arguments: a file and a number of days.
ghost use Rattle.std.specs.Prelude.{◌≡◌, ◌≤◌, IfSome};
ghost use Rattle.streams.specs.Counts.{IsPrefixLen};
ghost use Rattle.schedule_trace.specs.Days.{days_of};

use session_trace_lines::figure::{Bounded, figure_up_to};
use std::env::Env;
use std::fs::Files;
use std::io::Stderr;
use streams::{argument, buffer, read_file, say_failed};

// A schedule of so many bytes or more is not read.
pub const SCHEDULE_BYTES: usize = 262144;

const MOST_DAYS: u64 = 9999;

// Reads the file that an argument names: how many bytes; none, having said why, if it cannot be read. Which bytes a file has, std does not
// promise.
pub fn read_argument<R: Env + Files>(
    rt: &R,
    errors: Stderr,
    i: usize,
    text: &mut [u8],
) -> Option<usize>
    ensures { IfSome result (λ count. IsPrefixLen count text.new) }
{
    let mut path = buffer();
    let length = argument(rt, i, &mut path);
    match read_file(rt, &path[..length], text) {
        Ok(count) => Some(count),
        Err(why) => {
            say_failed(&errors, &path[..length], why);
            None
        }
    }
}

// A number of days, or 0 if the word is none from 1 to 9,999.
fn days_of(word: &[u8]) -> u64
    ensures { (result ≡ days_of word.now) × (result ≤ 9999) }
{
    match figure_up_to(word, 0, word.len(), MOST_DAYS) {
        Bounded::Value(days) => days,
        Bounded::Bad => 0,
    }
}

// The number of days that an argument gives, or 0. Which word an argument is, std does not promise.
pub fn days_argument<R: Env>(rt: &R, i: usize) -> u64
    ensures { result ≤ 9999 }
{
    let mut word = buffer();
    let length = argument(rt, i, &mut word);
    days_of(&word[..length])
}
