// The lines of a trace.
ghost use Rattle.std.specs.Prelude.{[], ◌∷◌, ◌++◌, ◌≡◌, ◌+◌, ◌*◌, ◌≤◌, length};
ghost use Rattle.listing.specs.Bytes.{figure, tab};
ghost use Rattle.schedule.specs.Sentence.{edges_of};
ghost use Rattle.session_print.specs.Puts.{Puts};
ghost use Rattle.windows_trace.specs.Trace.{input_line, trace_lines, last_line_lem};

use session_print::figure::{put_byte, put_figure};

// The letters of the two kinds of lines.
const INPUT: u8 = b'I';

const LAST: u8 = b'Q';

// A letter and a tab; the place past them.
fn put_letter(out: &mut [u8], at: usize, letter: u8) -> usize
    requires { at ≤ 100000 }
    ensures { Puts out.old at (letter ∷ (tab ∷ [])) out.new result × (result ≡ at + 2) }
{
    put_byte(out, at, letter);
    put_byte(out, at + 1, b'\t');
    at + 2
}

// A figure, and the byte that stands behind it; the place past them.
fn put_field(out: &mut [u8], at: usize, n: u64, after: u8) -> usize
    requires { at ≤ 200000 }
    ensures { Puts out.old at (figure n ++ (after ∷ [])) out.new result × (result ≤ at + 21) }
{
    let a = put_figure(out, at, n);
    put_byte(out, a, after);
    a + 1
}

// `I|time|input|value`; the place past it.
fn put_input_line(out: &mut [u8], at: usize, moment: u64, input: u32, value: u32) -> usize
    requires { at ≤ 100000 }
    ensures { Puts out.old at (input_line (record { moment = moment; input = input; value = value })) out.new result × (result ≤ at + 65) }
{
    let a = put_letter(out, at, INPUT);
    let b = put_field(out, a, moment, b'\t');
    let c = put_field(out, b, u64::from(input), b'\t');
    put_field(out, c, u64::from(value), b'\n')
}

// The lines of the inputs of three lists; how many bytes.
pub fn put_input_lines(out: &mut [u8], moments: &[u64], inputs: &[u32], values: &[u32]) -> usize
    requires { (length moments.now ≤ 960) × (length moments.now ≡ length inputs.now) × (length moments.now ≡ length values.now) }
    ensures { Puts out.old 0 (trace_lines (edges_of moments.now inputs.now values.now)) out.new result × (result ≤ 65 * length moments.now) }
{
    let mut place: usize = 0;
    for k in 0..moments.len() {
        place = put_input_line(out, place, moments[k], inputs[k], values[k]);
    }
    place
}

// `Q|time`; how many bytes.
pub fn put_last_line(out: &mut [u8], moment: u64) -> usize
    ensures { Puts out.old 0 (last_line_lem moment) out.new result × (result ≤ 23) }
{
    let a = put_letter(out, 0, LAST);
    put_field(out, a, moment, b'\n')
}
