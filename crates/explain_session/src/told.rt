// A refusal and a stop, put into lent bytes.
ghost use Rattle.std.specs.Prelude.{◌≡◌, ◌+◌, ◌≤◌, length};
ghost use Rattle.session_print.specs.Puts.{Puts};
ghost use Rattle.explain_session.specs.Told.{line_of, wrong_in, told_line, refused_text, stopped_text};

use explain_fields::Fault;
use explain_parts::{part_of, put_shown};
use explain_played::Ended;
use explain_trace::TraceFault;
use explain_trace_said::{Said, put_asked, put_code, put_fault, put_place};
use session_print::figure::put_figure;
use test_cases::report::put_text;

// So many bytes of a file's name and of a line are shown.
pub const NAME_SHOWN: usize = 4096;

const LINE_SHOWN: usize = 120;

// The line of a fault; 0 for none.
fn line_of<R: Copy>(fault: Option<TraceFault<R>>) -> usize
    ensures { result ≡ line_of fault }
{
    match fault {
        Some(fault) => fault.line,
        None => 0,
    }
}

// What is wrong in it.
fn wrong_in<R: Copy>(fault: Option<TraceFault<R>>) -> Option<Fault<R>>
    ensures { result ≡ wrong_in fault }
{
    match fault {
        Some(fault) => Some(fault.fault),
        None => None,
    }
}

// The reason at a line, the line as it is shown, and the rule; the place past them.
fn put_told<R: Said>(
    out: &mut [u8],
    at: usize,
    line: &[u8],
    fault: Option<Fault<R>>,
    code: u32,
) -> usize
    requires { at ≤ 20000 }
    ensures { Puts out.old at (told_line R.said line.now fault code) out.new result × (result ≤ at + 10000) }
{
    let a = put_fault(out, at, line, fault);
    let b = put_text(out, a, b"\n    ");
    let c = put_shown(out, b, line, LINE_SHOWN);
    put_code(out, c, code)
}

// A refusal: where, why, and its rule; how many bytes. Of numbers proofs Numbered `refused` says the text.
pub fn put_refused<R: Said>(
    out: &mut [u8],
    path: &[u8],
    trace: &[u8],
    fault: Option<TraceFault<R>>,
    code: u32,
) -> usize
    ensures { Puts out.old 0 (refused_text R.said path.now trace.now fault code) out.new result × (result ≤ 50000) }
{
    let number = line_of(fault);
    let a = put_place(out, 0, path, NAME_SHOWN, number);
    let line = part_of(trace, b'\n', number.saturating_sub(1));
    put_told(out, a, line, wrong_in(fault), code)
}

// A stop: where in the trace, the moment, its rule, and the lines of the listing at which it is asked; how many bytes.
pub fn put_stopped(
    out: &mut [u8],
    path: &[u8],
    listing_path: &[u8],
    listing: &[u8],
    ended: Ended,
) -> usize
    requires { length listing.now ≤ 49153 }
    ensures { Puts out.old 0 (stopped_text path.now listing_path.now listing.now ended) out.new result
        × (result ≤ 50000) }
{
    let line = ended.line;
    let moment = ended.moment;
    let code = ended.code;
    let a = put_place(out, 0, path, NAME_SHOWN, line);
    let b = put_text(out, a, b"the instant at ");
    let c = put_figure(out, b, moment);
    let d = put_text(out, c, b" stops the machine");
    let e = put_code(out, d, code);
    put_asked(out, e, listing_path, listing, code)
}
