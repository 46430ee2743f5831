// The two kinds of lines.
ghost use Rattle.std.specs.Prelude.{◌+◌, ◌*◌, ◌≤◌, length};
ghost use Rattle.walk.specs.Calls.{inputs_of};
ghost use Rattle.walk.specs.Events.{events_at};
ghost use Rattle.walk.specs.Session.{write_line, write_lines, end_line};
ghost use Rattle.session_print.specs.Puts.{Puts, front};

use crate::figure::{put_byte, put_figure, put_signed};

// The letters of the two kinds of lines.
const WRITE: u8 = b'O';

const END: u8 = b'X';

// A line's letter and first figure, each with a tab behind it; the place past them.
fn put_front(out: &mut [u8], at: usize, letter: u8, n: u64) -> usize
    requires { at ≤ 10000 }
    ensures { Puts out.old at (front letter n) out.new result × (result ≤ at + 23) }
{
    put_byte(out, at, letter);
    put_byte(out, at + 1, b'\t');
    let a = put_figure(out, at + 2, n);
    put_byte(out, a, b'\t');
    a + 1
}

// `O|time|output|value`; the place past it.
pub fn put_write_line(out: &mut [u8], at: usize, moment: u64, number: u32, value: u32) -> usize
    requires { at ≤ 10000 }
    ensures { Puts out.old at (write_line (record { moment = moment; number = number; value = value })) out.new result × (result ≤ at + 66) }
{
    let a = put_front(out, at, WRITE, moment);
    let b = put_figure(out, a, u64::from(number));
    put_byte(out, b, b'\t');
    let c = put_signed(out, b + 1, value);
    put_byte(out, c, b'\n');
    c + 1
}

// The lines of the writes of one moment, listed side by side as numbers and values; the place past them.
pub fn put_write_lines(
    out: &mut [u8],
    at: usize,
    moment: u64,
    numbers: &[u32],
    values: &[u32],
) -> usize
    requires { (at ≤ 1000) × (length numbers.now ≤ 16) }
    ensures { Puts out.old at (write_lines (events_at moment (inputs_of numbers.now values.now))) out.new result
        × (result ≤ at + 66 * length numbers.now) }
{
    let mut place = at;
    for (number, value) in numbers.iter().zip(values) {
        place = put_write_line(out, place, moment, *number, *value);
    }
    place
}

// `X|code|present moment`; the place past it.
pub fn put_end_line(out: &mut [u8], at: usize, code: u32, moment: u64) -> usize
    requires { at ≤ 10000 }
    ensures { Puts out.old at (end_line code moment) out.new result × (result ≤ at + 44) }
{
    let a = put_front(out, at, END, u64::from(code));
    let b = put_figure(out, a, moment);
    put_byte(out, b, b'\n');
    b + 1
}
