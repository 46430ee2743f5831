// Division of words, each of which stands for a signed number. Document 02: "rounding toward zero, the remainder with the
// dividend's sign; -2147483648 divided by -1 wraps to itself and its remainder is 0." Each is one unsigned division.
#![tactic(auto)]

ghost use Rattle.std.specs.Prelude.{◌<◌, ◌≡◌};
ghost use Rattle.words_division.specs.Division.{is_negative, magnitude, with_sign, signed_quotient, signed_remainder};

use words::wrapping_subtract;

// 2 to the 31: the words from here on stand for negative numbers.
const HALF: u32 = 2147483648;

// Whether the word stands for a negative number.
fn is_negative(a: u32) -> bool
    ensures { result ≡ is_negative a }
{
    HALF <= a
}

// That number without its sign.
fn magnitude(a: u32) -> u32
    ensures { result ≡ magnitude a }
{
    if is_negative(a) {
        wrapping_subtract(0, a)
    } else {
        a
    }
}

// The word of the number with this magnitude: of a negative one, or not.
fn with_sign(negative: bool, n: u32) -> u32
    ensures { result ≡ with_sign negative n }
{
    if negative { wrapping_subtract(0, n) } else { n }
}

// "rounding toward zero"
pub fn signed_quotient(x: u32, y: u32) -> u32
    requires { 0 < y }
    ensures { result ≡ signed_quotient x y }
{
    let negative = is_negative(x) != is_negative(y);
    with_sign(negative, magnitude(x) / magnitude(y))
}

// "the remainder with the dividend's sign"
pub fn signed_remainder(x: u32, y: u32) -> u32
    requires { 0 < y }
    ensures { result ≡ signed_remainder x y }
{
    with_sign(is_negative(x), magnitude(x) % magnitude(y))
}
