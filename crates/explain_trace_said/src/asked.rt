// The lines of a listing at which the rule of a stop is asked.
ghost use Rattle.std.specs.Prelude.{◌≡◌, ◌+◌, ◌≤◌, length};
ghost use Rattle.session_print.specs.Puts.{Puts};
ghost use Rattle.explain_trace_said.specs.Asked.{stands_in, divides, with_expression, asks};
ghost use Rattle.explain_trace_said.specs.Asked.{room, seen_after, count_all, word_text, asked_line, asked_here_lem, more_text, asked_all, asked_text};

use crate::place::put_place;
use explain_lines::letter::first_byte;
use explain_parts::put_shown;
use session_print::figure::put_figure;
use test_cases::report::put_text;

// So many lines are shown, of each so many bytes, and of the file's name.
const LINES_SHOWN: usize = 8;

const LINE_SHOWN: usize = 120;

const NAME_SHOWN: usize = 200;

// Whether a byte stands in a text.
fn stands_in(text: &[u8], byte: u8) -> bool
    ensures { result ≡ stands_in byte text.now }
{
    text.iter().any(|b| *b == byte)
}

// Whether a piece `/` or `%` is in a line.
fn line_divides(line: &[u8]) -> bool
    ensures { result ≡ divides line.now }
{
    if stands_in(line, b'/') {
        return true;
    }
    stands_in(line, b'%')
}

// Whether the instruction of a letter has an expression.
fn with_expression(letter: u8) -> bool
    ensures { result ≡ with_expression letter }
{
    match letter {
        b'S' => true,
        b'U' => true,
        b'A' => true,
        _ => false,
    }
}

// Whether a code's rule is asked at a line.
fn is_asked(code: u32, line: &[u8]) -> bool
    ensures { result ≡ asks code line.now }
{
    let letter = first_byte(line);
    match code {
        14 => letter == b'F',
        15 => letter == b'F',
        16 => letter == b'A',
        17 => letter == b'A',
        18 => with_expression(letter) && line_divides(line),
        _ => false,
    }
}

// At how many lines it is asked, one line more being looked at.
fn seen_after(code: u32, seen: usize, line: &[u8]) -> usize
    requires { seen ≤ 200000 }
    ensures { (result ≡ seen_after code seen line.now) × (result ≤ seen + 1) }
{
    if is_asked(code, line) {
        return seen + 1;
    }
    seen
}

// At how many lines of a listing it is asked.
fn count_asked(listing: &[u8], code: u32) -> usize
    requires { length listing.now ≤ 100000 }
    ensures { result ≡ count_all code listing.now }
{
    let mut seen: usize = 0;
    for line in listing.split(|b| *b == b'\n') {
        seen = seen_after(code, seen, line);
    }
    seen
}

// Whether it is the only line, in words; the place past them.
fn put_word(out: &mut [u8], at: usize, alone: bool) -> usize
    requires { at ≤ 50000 }
    ensures { Puts out.old at (word_text alone) out.new result × (result ≤ at + 20) }
{
    if alone {
        return put_text(out, at, b"it stops here: ");
    }
    put_text(out, at, b"it is asked here: ")
}

// A line at which the rule is asked; the place past it.
fn put_asked_line(
    out: &mut [u8],
    at: usize,
    path: &[u8],
    number: usize,
    line: &[u8],
    alone: bool,
) -> usize
    requires { at ≤ 40000 }
    ensures { Puts out.old at (asked_line path.now alone number line.now) out.new result × (result ≤ at + 1700) }
{
    let a = put_place(out, at, path, NAME_SHOWN, number);
    let b = put_word(out, a, alone);
    let c = put_shown(out, b, line, LINE_SHOWN);
    put_text(out, c, b"\n")
}

// The same of any line, if it is asked there and not as many have been seen as are shown; the place past it.
fn put_if_asked(
    out: &mut [u8],
    at: usize,
    path: &[u8],
    number: usize,
    line: &[u8],
    code: u32,
    alone: bool,
    seen: usize,
) -> usize
    requires { at ≤ 40000 }
    ensures { Puts out.old at (asked_here_lem path.now code alone seen number line.now) out.new result
        × (result ≤ at + room code seen line.now) }
{
    if !is_asked(code, line) {
        return at;
    }
    if seen >= LINES_SHOWN {
        return at;
    }
    put_asked_line(out, at, path, number, line, alone)
}

// How many more there are; the place past it.
fn put_more(out: &mut [u8], at: usize, seen: usize) -> usize
    requires { at ≤ 60000 }
    ensures { Puts out.old at (more_text seen) out.new result × (result ≤ at + 40) }
{
    if seen <= LINES_SHOWN {
        return at;
    }
    let a = put_text(out, at, b"and at ");
    let b = put_figure(out, a, (seen - LINES_SHOWN) as u64);
    put_text(out, b, b" more\n")
}

// The lines at which it is asked, and how many more there are; the place past them.
fn put_all_asked(
    out: &mut [u8],
    at: usize,
    path: &[u8],
    listing: &[u8],
    code: u32,
    alone: bool,
) -> usize
    requires { (at ≤ 25000) × (length listing.now ≤ 100000) }
    ensures { Puts out.old at (asked_all path.now code alone listing.now) out.new result × (result ≤ at + 14000) }
{
    let mut past = at;
    let mut number: usize = 1;
    let mut seen: usize = 0;
    for line in listing.split(|b| *b == b'\n') {
        past = put_if_asked(out, past, path, number, line, code, alone, seen);
        seen = seen_after(code, seen, line);
        number += 1;
    }
    put_more(out, past, seen)
}

// The lines at which the rule of a code is asked; the place past them.
pub fn put_asked(out: &mut [u8], at: usize, path: &[u8], listing: &[u8], code: u32) -> usize
    requires { (at ≤ 25000) × (length listing.now ≤ 100000) }
    ensures { Puts out.old at (asked_text path.now listing.now code) out.new result × (result ≤ at + 14000) }
{
    let alone = count_asked(listing, code) == 1;
    put_all_asked(out, at, path, listing, code, alone)
}
