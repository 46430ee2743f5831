// Fields, each read from the place past the tab before it.
ghost use Rattle.std.specs.Prelude.{◌≡◌, length};
ghost use Rattle.text_place.specs.Texts.{Within};
ghost use Rattle.text_fields.specs.Fields.{number_answer};
ghost use Rattle.text_fields.specs.Gather.{pieces_answer, expression_answer, figures_answer};

use crate::gathering::{Gathering, gathered};
use text_piece::{Figure, figure_of, piece_of};
use text_place::{Place, take_piece};

// A field of one figure: its number, the byte that closes the field, and the place past it.
#[derive(Clone, Copy)]
pub enum Number {
    Read(u64, u8, Place),
    Bad,
}

// A field that was read: what it says, the byte that closes it, and the place past it.
#[derive(Clone, Copy)]
pub struct Read<T> {
    pub value: T,
    pub stop: u8,
    pub next: Place,
}

// An expression: how many pieces, and whether its names are there.
#[derive(Clone, Copy)]
pub struct Expression {
    pub pieces: u64,
    pub there: bool,
}

// The next field, if the byte before it was a tab: one figure.
pub fn number_field(s: &[u8], place: Place, stop: u8) -> Number
    requires { Within s.now place.offset place.line }
    ensures { result ≡ number_answer s.now place stop }
{
    if stop == b'\t' {
        let t = take_piece(s, place);
        let b = t.stop;
        if b == b' ' {
            return Number::Bad;
        }
        let from = t.from;
        let to = t.to;
        let next = t.next;
        let Figure::Value(n) = figure_of(s, from, to) else {
            return Number::Bad;
        };
        return Number::Read(n, b, next);
    }
    Number::Bad
}

// The next field's pieces, in a routine of so many names.
pub fn pieces_field(s: &[u8], place: Place, stop: u8, names: u8) -> Option<Read<Gathering>>
    requires { Within s.now place.offset place.line }
    ensures { result ≡ pieces_answer names s.now place stop }
{
    if stop != b'\t' {
        return None;
    }
    let mut at = place.offset;
    let line = place.line;
    let mut g = Gathering {
        count: 0,
        held: 0,
        figures: true,
        first: 0,
        others: true,
        there: true,
    };
    loop {
        let t = take_piece(s, Place { offset: at, line });
        let from = t.from;
        let to = t.to;
        let p = piece_of(s, from, to);
        g = gathered(g, p, names);
        let b = t.stop;
        let next = t.next;
        if b != b' ' {
            return Some(Read {
                value: g,
                stop: b,
                next,
            });
        }
        at = next.offset;
    }
}

// The next field: an expression.
pub fn expression_field(s: &[u8], place: Place, stop: u8, names: u8) -> Option<Read<Expression>>
    requires { Within s.now place.offset place.line }
    ensures { result ≡ expression_answer names s.now place stop }
{
    let field = pieces_field(s, place, stop, names)?;
    let g = field.value;
    if g.held != 1 {
        return None;
    }
    Some(Read {
        value: Expression {
            pieces: g.count,
            there: g.there,
        },
        stop: field.stop,
        next: field.next,
    })
}

// The next field: figures.
pub fn figures_field(s: &[u8], place: Place, stop: u8, names: u8) -> Option<Read<Gathering>>
    requires { Within s.now place.offset place.line }
    ensures { result ≡ figures_answer names s.now place stop }
{
    let field = pieces_field(s, place, stop, names)?;
    if field.value.figures {
        return Some(field);
    }
    None
}
