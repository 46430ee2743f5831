// Bytes of an input as they are shown: escaped, and cut if there are many.
ghost use Rattle.std.specs.Prelude.{◌≡◌, ◌+◌, ◌*◌, ◌<◌, ◌≤◌, length};
ghost use Rattle.session_print.specs.Puts.{Puts};
ghost use Rattle.explain_parts.specs.Shown.{hex_digit, hexed, escaped, shown};

use session_print::figure::put_byte;

// The digit of a number below sixteen.
fn hex_digit(d: u8) -> u8
    requires { d < 16 }
    ensures { result ≡ hex_digit d }
{
    if d < 10 {
        return b'0' + d;
    }
    b'A' + (d - 10)
}

// A byte as \x and its two digits, put at a place; the place past them.
fn put_hex(out: &mut [u8], at: usize, b: u8) -> usize
    requires { at ≤ 100000 }
    ensures { Puts out.old at (hexed b) out.new result × (result ≤ at + 4) }
{
    put_byte(out, at, b'\\');
    put_byte(out, at + 1, b'x');
    put_byte(out, at + 2, hex_digit(b / 16));
    put_byte(out, at + 3, hex_digit(b % 16));
    at + 4
}

// A byte as it is shown, put at a place; the place past it.
fn put_escaped(out: &mut [u8], at: usize, b: u8) -> usize
    requires { at ≤ 100000 }
    ensures { Puts out.old at (escaped b) out.new result × (result ≤ at + 4) }
{
    if b == b'\t' {
        put_byte(out, at, b'\\');
        put_byte(out, at + 1, b't');
        return at + 2;
    }
    if b < b' ' {
        return put_hex(out, at, b);
    }
    if b > b'~' {
        return put_hex(out, at, b);
    }
    put_byte(out, at, b);
    at + 1
}

// The first so many bytes as they are shown, and two dots if there are more; the place past them.
pub fn put_shown(out: &mut [u8], at: usize, bytes: &[u8], most: usize) -> usize
    requires { (at ≤ 60000) × (most ≤ 4096) }
    ensures { Puts out.old at (shown most bytes.now) out.new result × (result ≤ at + 4 * most + 2) }
{
    let kept = &bytes[..most.min(bytes.len())];
    let mut past = at;
    for b in kept {
        past = put_escaped(out, past, *b);
    }
    if bytes.len() > most {
        put_byte(out, past, b'.');
        put_byte(out, past + 1, b'.');
        return past + 2;
    }
    past
}
