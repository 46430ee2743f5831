// What the program says of a trace, put into lent bytes.
ghost use Rattle.std.specs.Prelude.{◌≤◌, length};
ghost use Rattle.explain.specs.Traced.{PlayedSaid, TraceSaid};

use explain_listing::said::{put_named, text};
use explain_listing::verdict::{Refusal, judge, read_listing};
use explain_session::put_session;
use std::fs::Files;
use std::io::Stderr;

// Of a trace on a listing; how many bytes.
fn put_played(
    out: &mut [u8],
    path: &[u8],
    trace: &[u8],
    listing_path: &[u8],
    listing: &[u8],
) -> usize
    requires { (length listing.now ≤ 49153) × (length trace.now ≤ 49153) }
    ensures { PlayedSaid path.now trace.now listing_path.now listing.now out.old out.new result
        × (result ≤ 50000) }
{
    match judge(listing) {
        Ok(()) => put_session(out, path, trace, listing_path, listing),
        Err(Refusal::TooLong) => put_named(
            out,
            path,
            b": It is not played: the listing does not load.\n",
        ),
        Err(Refusal::Fails(_, _)) => put_named(
            out,
            path,
            b": It is not played: the listing does not load.\n",
        ),
    }
}

// Of two files, if both can be read; how many bytes.
pub fn put_traced<R: Files>(
    files: &R,
    errors: Stderr,
    out: &mut [u8],
    path: &[u8],
    listing_path: &[u8],
) -> usize
    ensures { TraceSaid path.now listing_path.now out.old out.new result × (result ≤ 50000) }
{
    let mut listing = text();
    let Some(m) = read_listing(files, errors, listing_path, &mut listing) else {
        return 0;
    };
    let mut trace = text();
    let Some(n) = read_listing(files, errors, path, &mut trace) else {
        return 0;
    };
    put_played(out, path, &trace[..n], listing_path, &listing[..m])
}
