// Bytes and right-aligned figures, put at a place.
ghost use Rattle.std.specs.Prelude.{◌≡◌, ◌+◌, ◌≤◌, length, set, replicate};
ghost use Rattle.std.proofs.lemmas.List.Edits.{sets};
ghost use Rattle.listing.specs.Bytes.{figure};
ghost use Rattle.page_rows.specs.Rows.{right_aligned};
ghost use Rattle.page_rows.specs.Columns.{column_byte};

// One byte.
pub fn put_byte(out: &mut [u8], at: usize, b: u8)
    ensures { out.new ≡ set out.old at b }
{
    if at < out.len() {
        out[at] = b;
    }
}

// Bytes, one behind another.
pub fn put_bytes(out: &mut [u8], at: usize, bytes: &[u8])
    requires { (at ≤ 100000) × (length bytes.now ≤ 100) }
    ensures { out.new ≡ sets out.old at bytes.now }
{
    for (k, b) in bytes.iter().enumerate() {
        put_byte(out, at + k, *b);
    }
}

// One byte so many times.
pub fn put_repeated(out: &mut [u8], at: usize, b: u8, count: usize)
    requires { (at ≤ 100000) × (count ≤ 100) }
    ensures { out.new ≡ sets out.old at (replicate count b) }
{
    for k in 0..count {
        put_byte(out, at + k, b);
    }
}

// The digit of a number below ten.
fn digit(d: u64) -> u8
    requires { d ≤ 9 }
    ensures { result ≡ 48 + d }
{
    b'0' + d as u8
}

// What stands in a column before the last one: the last digit of what is left of the number, or a space if nothing is.
fn column_byte(rest: u64) -> u8
    ensures { result ≡ column_byte rest }
{
    if rest == 0 {
        return b' ';
    }
    digit(rest % 10)
}

// A figure, right-aligned in so many columns, which suffice for it.
pub fn put_figure(out: &mut [u8], at: usize, columns: usize, n: u64)
    requires { (at ≤ 100000) × (1 ≤ columns) × (columns ≤ 20) × (length (figure n) ≤ columns) }
    ensures { out.new ≡ sets out.old at (right_aligned columns (figure n)) }
{
    let last = columns - 1;
    put_byte(out, at + last, digit(n % 10));
    let mut rest = n / 10;
    for k in (0..last).rev() {
        put_byte(out, at + k, column_byte(rest));
        rest /= 10;
    }
}
