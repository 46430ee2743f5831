// The session of a listing that loads and of a trace, explained.
ghost use Rattle.std.specs.Prelude.{◌≤◌, length};
ghost use Rattle.session_print.specs.Puts.{Puts};
ghost use Rattle.explain_session.specs.Told.{plain_text, ended_text};
ghost use Rattle.explain_session.specs.Sessions.{SessionSaid};

use crate::told::{NAME_SHOWN, put_refused, put_stopped};
use explain_parts::put_shown;
use explain_played::{Ended, how_it_ends, leading_figure};
use explain_trace::trace_fault;
use test_cases::report::put_text;

// "a trace over 49,152"
const LONGEST: usize = 49152;

// The first number that stops a machine.
const FIRST_STOP: u32 = 13;

// A file's name and what is said of it; how many bytes.
fn put_plain(out: &mut [u8], path: &[u8], text: &[u8]) -> usize
    requires { length text.now ≤ 200 }
    ensures { Puts out.old 0 (plain_text path.now text.now) out.new result × (result ≤ 50000) }
{
    let a = put_shown(out, 0, path, NAME_SHOWN);
    put_text(out, a, text)
}

// How a session ended, in words; how many bytes.
fn put_ended(
    out: &mut [u8],
    path: &[u8],
    trace: &[u8],
    listing_path: &[u8],
    listing: &[u8],
    ended: Ended,
) -> usize
    requires { (length listing.now ≤ 49153) × (length trace.now ≤ 49153) }
    ensures { Puts out.old 0 (ended_text path.now trace.now listing_path.now listing.now ended)
        out.new result × (result ≤ 50000) }
{
    let code = ended.code;
    if code == 0 {
        return put_plain(out, path, b": It plays to its end.\n");
    }
    if code >= FIRST_STOP {
        return put_stopped(out, path, listing_path, listing, ended);
    }
    let inputs = leading_figure(listing) as u64;
    let fault = trace_fault(trace, inputs);
    put_refused(out, path, trace, fault, code)
}

// What is said of a trace on a listing; how many bytes.
pub fn put_session(
    out: &mut [u8],
    path: &[u8],
    trace: &[u8],
    listing_path: &[u8],
    listing: &[u8],
) -> usize
    requires { (length listing.now ≤ 49153) × (length trace.now ≤ 49153) }
    ensures { SessionSaid path.now trace.now listing_path.now listing.now
        out.old out.new result }
{
    if trace.len() > LONGEST {
        return put_plain(
            out,
            path,
            b": The file is too long: a trace has at most 49,152 bytes. A session ends with code 2.\n",
        );
    }
    let ended = how_it_ends(listing, trace);
    put_ended(out, path, trace, listing_path, listing, ended)
}
