// Arithmetic of words, each of which stands for a signed number. Document 01: "Sums, differences and products wrap at 32
// bits, two's complement; `<` gives 1 or 0."
ghost use Rattle.std.specs.Prelude.{◌≡◌, ◌<◌};
ghost use Rattle.words.specs.Words.{wrapping_add, wrapping_subtract, wrapping_multiply, bit, signed_less, is_positive, all_zero};

// 2 to the 32: a product's remainder by it is the product's word.
const SIZE: u64 = 4294967296;

// 2 to the 31: the words from here on stand for negative numbers.
const HALF: u32 = 2147483648;

// The sum, as std supplies it.
pub fn wrapping_add(a: u32, b: u32) -> u32
    ensures { result ≡ wrapping_add a b }
{
    a.wrapping_add(b)
}

// The difference, as std supplies it.
pub fn wrapping_subtract(a: u32, b: u32) -> u32
    ensures { result ≡ wrapping_subtract a b }
{
    a.wrapping_sub(b)
}

// The whole product has 64 bits; its word is the remainder. Document 01 asks for an own product.
pub fn wrapping_multiply(a: u32, b: u32) -> u32
    ensures { result ≡ wrapping_multiply a b }
{
    let product = u64::from(a) * u64::from(b);
    (product % SIZE) as u32
}

// 1 if a's number is below b's, else 0. Moved up by half of all words, the negative numbers come before the others.
pub fn signed_less(a: u32, b: u32) -> u32
    ensures { result ≡ bit (signed_less a b) }
{
    let x = wrapping_add(a, HALF);
    let y = wrapping_add(b, HALF);
    u32::from(x < y)
}

// A word as a number to count or to address with.
pub fn number(x: u32) -> usize
    ensures { (result ≡ x) × (result < 4294967296) }
{
    x as usize
}

// A number that is kept in a byte, as the engine's lists keep slots.
pub fn byte_number(x: u8) -> usize
    ensures { result ≡ x }
{
    usize::from(x)
}

// Whether d's number is at least 1, as a delay has to be.
pub fn is_positive(d: u32) -> bool
    ensures { result ≡ is_positive d }
{
    1 <= d && d < HALF
}

// Are all these words 0? It goes on to the last one, since the compiler then takes several at a time.
pub fn all_zero(xs: &[u32]) -> bool
    ensures { result ≡ all_zero xs.now }
{
    let mut clear = true;
    for x in xs {
        clear &= *x == 0;
    }
    clear
}
