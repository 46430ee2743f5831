// Why a field is out of form, by what it holds.
ghost use Rattle.std.specs.Prelude.{◌≡◌, ◌≤◌, length};
ghost use Rattle.explain_fields.specs.Fields.{held_unless, up_to, told_of_lem, ended_why, field_fault, fault_in};

use crate::piece::{figure_why, kinds_why, weigh};
use crate::reasons::{Fault, Reason, Spot};

// What a field holds: a figure, the kinds of arguments, an expression, names to wait on, a child's routine and arguments.
#[derive(Clone, Copy, Debug, PartialEq, Eq)]
pub enum Role {
    Number,
    Kinds,
    Expression,
    Names,
    Child,
}

// The reason, and the number of the piece, from 1; none if it is about the whole field.
#[derive(Clone, Copy)]
pub struct Found {
    pub why: Reason,
    pub piece: Option<usize>,
}

// The same as a fault of a line, by the field's number.
pub fn fault_in(found: Found, field: usize) -> Fault<Reason>
    ensures { result ≡ fault_in found field }
{
    let why = found.why;
    match found.piece {
        Some(piece) => Fault {
            why,
            spot: Spot::Piece(field, piece),
        },
        None => Fault {
            why,
            spot: Spot::Field(field),
        },
    }
}

// What is held after a piece, if there is no reason against it.
fn held_unless(why: Option<Reason>, held: u8) -> Result<u8, Reason>
    ensures { result ≡ held_unless why held }
{
    match why {
        Some(why) => Err(why),
        None => Ok(held),
    }
}

// One piece more, of at most so many.
fn up_to(most: u8, too_many: Reason, held: u8, why: Option<Reason>) -> Result<u8, Reason>
    ensures { result ≡ up_to most too_many held why }
{
    if held < most {
        return held_unless(why, held + 1);
    }
    Err(too_many)
}

// What is held after a piece of a field: values of an expression, or pieces; or the piece's reason.
fn told(role: Role, held: u8, piece: &[u8]) -> Result<u8, Reason>
    ensures { result ≡ told_of_lem role held piece.now }
{
    match role {
        Role::Number => up_to(1, Reason::SecondPiece, held, figure_why(piece)),
        Role::Kinds => up_to(1, Reason::SecondPiece, held, kinds_why(piece)),
        Role::Expression => weigh(held, piece),
        Role::Names => up_to(4, Reason::FifthName, held, figure_why(piece)),
        Role::Child => held_unless(figure_why(piece), held),
    }
}

// The reason of a field whose pieces are each in form.
fn ended_why(role: Role, held: u8) -> Option<Reason>
    ensures { result ≡ ended_why role held }
{
    match role {
        Role::Number => None,
        Role::Kinds => None,
        Role::Expression => {
            if held == 1 {
                return None;
            }
            Some(Reason::LeavesSeveral)
        }
        Role::Names => None,
        Role::Child => None,
    }
}

// The first piece of a field that is wrong.
pub fn field_fault(field: &[u8], role: Role) -> Option<Found>
    requires { length field.now ≤ 100000 }
    ensures { result ≡ field_fault role field.now }
{
    let mut held: u8 = 0;
    let mut number: usize = 1;
    for piece in field.split(|b| *b == b' ') {
        match told(role, held, piece) {
            Ok(next) => held = next,
            Err(why) => {
                return Some(Found {
                    why,
                    piece: Some(number),
                });
            }
        }
        number += 1;
    }
    match ended_why(role, held) {
        Some(why) => Some(Found { why, piece: None }),
        None => None,
    }
}
