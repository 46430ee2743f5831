// What a listing's lines tell around one of them: its routine, and how many routines there are.
ghost use Rattle.std.specs.Prelude.{◌≡◌, ◌≤◌, length};
ghost use Rattle.text_piece.specs.Pieces.{figure_answer};
ghost use Rattle.explain_parts.specs.Parts.{part_of};
ghost use Rattle.explain_there.specs.Arounds.{Small, around_line, around_of, kinds_count, value_in, names_on, scope_at};

use explain_lines::letter::first_byte;
use explain_parts::part_of;
use text_piece::{Figure, figure_of};

// The lines so far; the routines; how many lines come before the `R` of the routine looked for, and its instructions; whether a later routine began.
#[derive(Clone, Copy)]
pub struct Around {
    pub lines: usize,
    pub routines: usize,
    pub opening: usize,
    pub size: usize,
    pub past: bool,
}

// One line more, for the routine of the line at a place.
fn around_line(held: Around, place: usize, line: &[u8]) -> Around
    requires { Small held }
    ensures { result ≡ around_line held place line.now }
{
    let letter = first_byte(line);
    if letter == b'R' {
        if place <= held.lines {
            return Around {
                lines: held.lines + 1,
                routines: held.routines + 1,
                past: true,
                ..held
            };
        }
        return Around {
            lines: held.lines + 1,
            routines: held.routines + 1,
            opening: held.lines,
            size: 0,
            ..held
        };
    }
    if letter == 0 {
        return held;
    }
    if held.past {
        return Around {
            lines: held.lines + 1,
            ..held
        };
    }
    Around {
        lines: held.lines + 1,
        size: held.size + 1,
        ..held
    }
}

// All lines.
pub fn around_all(listing: &[u8], place: usize) -> Around
    requires { length listing.now ≤ 100000 }
    ensures { result ≡ around_of listing.now place }
{
    let mut held = Around {
        lines: 0,
        routines: 0,
        opening: 0,
        size: 0,
        past: false,
    };
    for line in listing.split(|b| *b == b'\n') {
        held = around_line(held, place, line);
    }
    held
}

// How many kinds a field in form has.
fn kinds_count(field: &[u8]) -> usize
    ensures { (result ≡ kinds_count field.now) × (result ≤ length field.now) }
{
    if first_byte(field) == b'-' {
        return 0;
    }
    field.len()
}

// The number of a figure; 0 for none.
fn figure_value(piece: &[u8]) -> usize
    ensures { (result ≡ value_in (figure_answer piece.now)) × (result ≤ 1099511627776) }
{
    let f = figure_of(piece, 0, piece.len());
    match f {
        Figure::Value(n) => n as usize,
        Figure::Bad => 0,
    }
}

// The locals of a routine, by its `R`.
fn locals_on(line: &[u8]) -> usize
    ensures { (result ≡ value_in (figure_answer (part_of 9 line.now 2))) × (result ≤ 1099511627776) }
{
    figure_value(part_of(line, b'\t', 2))
}

// The names of a routine, by its `R`.
fn names_on(line: &[u8]) -> usize
    requires { length line.now ≤ 100000 }
    ensures { result ≡ names_on line.now }
{
    kinds_count(part_of(line, b'\t', 1)) + locals_on(line)
}

// What a line's names, jumps and calls may point to: numbers below these.
#[derive(Clone, Copy)]
pub struct Scope {
    pub names: usize,
    pub size: usize,
    pub routines: usize,
}

// The scope of the line at a place.
pub fn scope_at(listing: &[u8], place: usize) -> Scope
    requires { length listing.now ≤ 100000 }
    ensures { result ≡ scope_at listing.now place }
{
    let held = around_all(listing, place);
    Scope {
        names: names_on(part_of(listing, b'\n', held.opening)),
        size: held.size,
        routines: held.routines,
    }
}
