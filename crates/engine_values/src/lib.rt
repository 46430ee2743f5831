// The stack of values held while an expression is evaluated: "never .. more than 8". The one on top is handed on by value; those below it
// stand in an array, which the caller keeps, from place 1 on. (The first push stores a top that is no value in place 0, which is never read.)
#![tactic(auto)]

ghost use Rattle.std.specs.Prelude.{◌≡◌, ◌≤◌, ◌<◌, length, true};
ghost use Rattle.table.specs.Decode.{is_sign};
ghost use Rattle.std.proofs.Math.Option.{some};
ghost use Rattle.engine_values.specs.Values.{Pushed, Operated, sign_of, found};

use table::{DIVIDE, LESS, MINUS, PLUS, TIMES};
use words::{signed_less, wrapping_add, wrapping_multiply, wrapping_subtract};
use words_division::{signed_quotient, signed_remainder};

// Where a sign divides by 0 it gives no value. (A value has 32 bits.)
pub const NO_VALUE: u64 = 4294967296;

// How many values are held, and the one on top.
#[derive(Clone, Copy)]
pub struct Held {
    pub count: usize,
    pub top: u32,
}

// One value more.
pub fn push(values: &mut [u32; 8], held: Held, v: u32) -> Held
    requires { (length values.old ≡ 8) × (held.count < 8) }
    ensures { Pushed values.old held v values.new result }
{
    let count = held.count;
    values[count] = held.top;
    Held {
        count: count + 1,
        top: v,
    }
}

// `+` or `-`.
fn sum(kind: u32, left: u32, right: u32) -> u32
    requires { (3 ≤ kind) × (kind ≤ 4) }
    ensures { sign_of kind left right ≡ some result }
{
    match kind {
        PLUS => wrapping_add(left, right),
        _ => wrapping_subtract(left, right),
    }
}

// `*` or `<`.
fn product(kind: u32, left: u32, right: u32) -> u32
    requires { (5 ≤ kind) × (kind ≤ 6) }
    ensures { sign_of kind left right ≡ some result }
{
    match kind {
        TIMES => wrapping_multiply(left, right),
        _ => signed_less(left, right),
    }
}

// `/` or `%`. "18: is every divisor other than 0?"
fn quotient(kind: u32, left: u32, right: u32) -> Option<u32>
    requires { (7 ≤ kind) × (kind ≤ 8) }
    ensures { found result ≡ sign_of kind left right }
{
    if right == 0 {
        return None;
    }
    match kind {
        DIVIDE => Some(signed_quotient(left, right)),
        _ => Some(signed_remainder(left, right)),
    }
}

// The sign with this kind's number, between two values. (They are told in twos: one match over all becomes a jump through a table.)
pub fn sign(kind: u32, left: u32, right: u32) -> Option<u32>
    requires { is_sign kind ≡ true }
    ensures { found result ≡ sign_of kind left right }
{
    if kind <= MINUS {
        return Some(sum(kind, left, right));
    }
    if kind <= LESS {
        return Some(product(kind, left, right));
    }
    quotient(kind, left, right)
}

// The two values on top joined by a sign: the one pushed first is the left. It is the last of those below the top.
// After a division by 0 nothing is held.
pub fn operate(values: &[u32; 8], held: Held, kind: u32) -> Option<Held>
    requires { (is_sign kind ≡ true) × (length values.now ≡ 8) × (2 ≤ held.count) × (held.count ≤ 8) }
    ensures { Operated values.now held kind result }
{
    let below = held.count - 1;
    match sign(kind, values[below], held.top) {
        Some(top) => Some(Held { count: below, top }),
        None => None,
    }
}
