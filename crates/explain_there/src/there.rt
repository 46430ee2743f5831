// Which piece of a line points to nothing.
ghost use Rattle.std.specs.Prelude.{◌≡◌, ◌≤◌, length};
ghost use Rattle.text_fields.specs.Gather.{is_there_by};
ghost use Rattle.text_piece.specs.Pieces.{piece_answer};
ghost use Rattle.explain_there.specs.There.{first_target, bound_of, missing, field_there, fields_there, there_fault};

use crate::around::{Scope, scope_at};
use explain_fields::{Fault, Found, Reason, about, fault_in};
use explain_lines::letter::first_byte;
use explain_parts::{count_parts, part_of};
use text_piece::{Piece, piece_of};

// Whether a piece points to nothing, or to a number below a bound.
fn is_below(p: Piece, bound: usize) -> bool
    ensures { result ≡ is_there_by bound p }
{
    match p {
        Piece::Literal(_) => true,
        Piece::Value(n) => n < bound as u64,
        Piece::Mark(n) => n < bound as u64,
        Piece::Plus => true,
        Piece::Minus => true,
        Piece::Times => true,
        Piece::Less => true,
        Piece::Divide => true,
        Piece::Remainder => true,
        Piece::Bad => true,
    }
}

fn piece_there(piece: &[u8], bound: usize) -> bool
    ensures { result ≡ is_there_by bound (piece_answer piece.now) }
{
    is_below(piece_of(piece, 0, piece.len()), bound)
}

// What a piece points to.
#[derive(Clone, Copy, Debug, PartialEq, Eq)]
pub enum Target {
    Name,
    Instruction,
    Routine,
}

// What the first piece of a field points to, by the letter and the field's number after it.
fn first_target(letter: u8, number: usize) -> Target
    ensures { result ≡ first_target letter number }
{
    if letter == b'F' {
        return Target::Routine;
    }
    if letter == b'G' {
        return Target::Instruction;
    }
    if letter == b'U' {
        if number == 2 {
            return Target::Instruction;
        }
    }
    Target::Name
}

// How many there are.
fn bound_of(scope: Scope, target: Target) -> usize
    ensures { result ≡ bound_of scope target }
{
    match target {
        Target::Name => scope.names,
        Target::Instruction => scope.size,
        Target::Routine => scope.routines,
    }
}

// The reason if one of so many is not there.
fn missing(target: Target, bound: usize) -> Reason
    ensures { result ≡ missing target bound }
{
    match target {
        Target::Name => Reason::NoName(bound),
        Target::Instruction => Reason::NoJump(bound),
        Target::Routine => Reason::NoRoutine(bound),
    }
}

// The first piece of a field that points to nothing.
fn field_there(field: &[u8], scope: Scope, first: Target) -> Option<Found>
    requires { length field.now ≤ 100000 }
    ensures { result ≡ field_there scope first field.now }
{
    let mut target = first;
    let mut number: usize = 1;
    for piece in field.split(|b| *b == b' ') {
        let bound = bound_of(scope, target);
        if !piece_there(piece, bound) {
            return Some(Found {
                why: missing(target, bound),
                piece: Some(number),
            });
        }
        target = Target::Name;
        number += 1;
    }
    None
}

// The first of so many fields after the letter that does.
fn fields_there(line: &[u8], letter: u8, count: usize, scope: Scope) -> Fault<Reason>
    requires { (length line.now ≤ 100000) × (count ≤ 200000) }
    ensures { result ≡ fields_there scope letter line.now 1 count }
{
    for number in 1..count + 1 {
        let field = part_of(line, b'\t', number);
        match field_there(field, scope, first_target(letter, number)) {
            Some(found) => {
                return fault_in(found, number + 1);
            }
            None => {}
        }
    }
    about(Reason::ArgumentCount)
}

// Why a line points to nothing. Place 1 answers for main being there, its `R` for being as stated.
pub fn there_fault(listing: &[u8], place: usize, line: &[u8]) -> Fault<Reason>
    requires { (length listing.now ≤ 100000) × (length line.now ≤ 100000) }
    ensures { result ≡ there_fault listing.now place line.now }
{
    if place <= 1 {
        return about(Reason::NoMain);
    }
    let letter = first_byte(line);
    if letter == b'R' {
        return about(Reason::MainAsStated);
    }
    let scope = scope_at(listing, place);
    fields_there(line, letter, count_parts(line, b'\t') - 1, scope)
}
