// What a piece does to the values that an expression holds. Document 01: "It leaves one value and never holds more than 8; both belong to its form."
// For the reader of a text and the check of a table alike: each says by its own pieces which effect they have.
#![tactic(auto)]

ghost use Rattle.std.specs.Prelude.{◌≡◌};
ghost use Rattle.listing.specs.Expressions.{adds, joins};
ghost use Rattle.listing_effect.specs.Held.{held_by, held_after};

// It adds a value, takes two and leaves one, or is no piece.
#[derive(Clone, Copy, Debug, PartialEq, Eq)]
pub enum Effect {
    Adds,
    Joins,
    Unknown,
}

// Held once an expression is out of form.
pub const OUT_OF_FORM: u8 = 9;

// The values held after one is added.
fn one_more(held: u8) -> u8
    ensures { result ≡ held_by held adds }
{
    if held < 8 {
        return held + 1;
    }
    OUT_OF_FORM
}

// The values held after two are made one.
fn one_fewer(held: u8) -> u8
    ensures { result ≡ held_by held joins }
{
    if held < 2 {
        return OUT_OF_FORM;
    }
    if held <= 8 {
        return held - 1;
    }
    OUT_OF_FORM
}

// The values held after a piece of this effect.
pub fn held_after(held: u8, effect: Effect) -> u8
    ensures { result ≡ held_after held effect }
{
    match effect {
        Effect::Adds => one_more(held),
        Effect::Joins => one_fewer(held),
        Effect::Unknown => OUT_OF_FORM,
    }
}
