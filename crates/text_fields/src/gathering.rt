// What is gathered from the pieces of a field, one after another: as an expression, and as a row of names.
ghost use Rattle.std.specs.Prelude.{◌≡◌, ◌<◌};
ghost use Rattle.text_fields.specs.Gather.{is_there_by, is_value, value_in, gather_one};

use listing_effect::held_after;
use text_piece::{Piece, effect_of};

#[derive(Clone, Copy)]
pub struct Gathering {
    // how many pieces
    pub count: u64,
    // the values that an expression of them holds, 9 once it is out of form
    pub held: u8,
    // whether each is a figure
    pub figures: bool,
    // the first one's figure
    pub first: u64,
    // whether the names after the first are there
    pub others: bool,
    // whether all names are there
    pub there: bool,
}

// Whether a piece's name is one of so many.
pub fn is_there(p: Piece, names: u8) -> bool
    ensures { result ≡ is_there_by names p }
{
    match p {
        Piece::Value(n) => n < u64::from(names),
        Piece::Mark(n) => n < u64::from(names),
        _ => true,
    }
}

fn is_value(p: Piece) -> bool
    ensures { result ≡ is_value p }
{
    matches!(p, Piece::Value(_))
}

fn value_in(p: Piece) -> u64
    ensures { result ≡ value_in p }
{
    match p {
        Piece::Value(n) => n,
        _ => 0,
    }
}

// One piece more.
pub fn gathered(g: Gathering, p: Piece, names: u8) -> Gathering
    requires { g.count < 18446744073709551615 }
    ensures { result ≡ gather_one names g p }
{
    let held = held_after(g.held, effect_of(p));
    let figures = g.figures & is_value(p);
    let known = is_there(p, names);
    let there = g.there & known;
    if g.count == 0 {
        return Gathering {
            count: 1,
            held,
            figures,
            first: value_in(p),
            others: g.others,
            there,
        };
    }
    Gathering {
        count: g.count + 1,
        held,
        figures,
        first: g.first,
        others: g.others & known,
        there,
    }
}
