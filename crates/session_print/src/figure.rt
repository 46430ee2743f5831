// Decimal figures, put into lent bytes at a place.
ghost use Rattle.std.specs.Prelude.{◌≡◌, ◌+◌, ◌≤◌, length, set};
ghost use Rattle.listing.specs.Bytes.{figure};
ghost use Rattle.listing.specs.Text.{signed_figure};
ghost use Rattle.session_print.specs.Puts.{Puts};

// 2 to the 31: the words from here on are the negative values.
const HALF: u32 = 2147483648;

// One byte.
pub fn put_byte(out: &mut [u8], at: usize, b: u8)
    ensures { out.new ≡ set out.old at b }
{
    if at < out.len() {
        out[at] = b;
    }
}

// The number of digits of n.
fn digit_count(n: u64) -> usize
    ensures { (result ≡ length (figure n)) × (result ≤ 20) }
{
    let mut count: usize = 1;
    let mut rest = n;
    while rest >= 10 {
        rest = rest / 10;
        count += 1;
    }
    count
}

// The digit of a number below ten.
fn digit(d: u64) -> u8
    requires { d ≤ 9 }
    ensures { result ≡ 48 + d }
{
    b'0' + d as u8
}

// The figure of n; the place past it.
pub fn put_figure(out: &mut [u8], at: usize, n: u64) -> usize
    requires { at ≤ 1000000 }
    ensures { Puts out.old at (figure n) out.new result × (result ≤ at + 20) }
{
    let count = digit_count(n);
    let mut rest = n;
    for k in (0..count).rev() {
        put_byte(out, at + k, digit(rest % 10));
        rest = rest / 10;
    }
    at + count
}

// A word as a signed figure; the place past it.
pub fn put_signed(out: &mut [u8], at: usize, word: u32) -> usize
    requires { at ≤ 100000 }
    ensures { Puts out.old at (signed_figure word) out.new result × (result ≤ at + 21) }
{
    if word < HALF {
        return put_figure(out, at, u64::from(word));
    }
    put_byte(out, at, b'-');
    put_figure(out, at + 1, 4294967296 - u64::from(word))
}
