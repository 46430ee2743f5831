// A line of a file.
ghost use Rattle.std.specs.Prelude.{◌+◌, ◌*◌, ◌≤◌};
ghost use Rattle.session_print.specs.Puts.{Puts};
ghost use Rattle.explain_trace_said.specs.Places.{place_text};

use explain_parts::put_shown;
use session_print::figure::put_figure;
use test_cases::report::put_text;

// The file and the line, the first so many bytes of its name being shown; the place past them.
pub fn put_place(out: &mut [u8], at: usize, path: &[u8], most: usize, line: usize) -> usize
    requires { (at ≤ 40000) × (most ≤ 4096) }
    ensures { Puts out.old at (place_text most path.now line) out.new result × (result ≤ at + 4 * most + 25) }
{
    let a = put_shown(out, at, path, most);
    let b = put_text(out, a, b":");
    let c = put_figure(out, b, line as u64);
    put_text(out, c, b": ")
}
