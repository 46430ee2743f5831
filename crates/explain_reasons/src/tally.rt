// What the first lines of a listing in form hold, against the limits of question 3.
ghost use Rattle.std.specs.Prelude.{◌≡◌, ◌≤◌, length};
ghost use Rattle.explain_reasons.specs.Tallies.{Small, tally_line, tally_of, limit_why, limit_of};

use explain_fields::Reason;
use explain_lines::letter::first_byte;
use explain_parts::{count_parts, part_end};

#[derive(Clone, Copy)]
pub struct Tally {
    pub bytes: usize,
    pub routines: usize,
    pub instructions: usize,
    pub pieces: usize,
}

// One line more, without its line feed.
fn tally_line(held: Tally, line: &[u8]) -> Tally
    requires { Small held × (length line.now ≤ 100000) }
    ensures { result ≡ tally_line held line.now }
{
    let bytes = held.bytes + line.len() + 1;
    let letter = first_byte(line);
    if letter == b'P' {
        return Tally { bytes, ..held };
    }
    if letter == b'R' {
        return Tally {
            bytes,
            routines: held.routines + 1,
            ..held
        };
    }
    Tally {
        bytes,
        instructions: held.instructions + 1,
        pieces: held.pieces + (count_parts(line, b'\t') - 1) + (count_parts(line, b' ') - 1),
        ..held
    }
}

// The first so many lines.
fn tally_lines(listing: &[u8], lines: usize) -> Tally
    requires { length listing.now ≤ 100000 }
    ensures { result ≡ tally_of listing.now lines }
{
    let mut at: usize = 0;
    let mut held = Tally {
        bytes: 0,
        routines: 0,
        instructions: 0,
        pieces: 0,
    };
    for done in 0..lines {
        let end = part_end(listing, b'\n', at);
        held = tally_line(held, &listing[at..end]);
        if end == listing.len() {
            return held;
        }
        at = end + 1;
    }
    held
}

// Which limit is passed; if no other is, that of names.
fn limit_of(held: Tally) -> Reason
    ensures { result ≡ limit_of held }
{
    if held.bytes > 49152 {
        return Reason::ManyBytes;
    }
    if held.routines > 64 {
        return Reason::ManyRoutines;
    }
    if held.instructions > 512 {
        return Reason::ManyInstructions;
    }
    if held.pieces > 4096 {
        return Reason::ManyPieces;
    }
    Reason::ManyNames
}

// Which limit a line passes.
pub fn limit_why(listing: &[u8], place: usize) -> Reason
    requires { length listing.now ≤ 100000 }
    ensures { result ≡ limit_why listing.now place }
{
    limit_of(tally_lines(listing, place))
}
