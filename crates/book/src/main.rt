// Prints the valve book of a session, all pages one behind another: the session's print comes on standard input, as
// `session LISTING TRACE` writes it, and lines that are no writes end it. What it reads and prints, the stored run shows; the writes
// are gathered by book_writes and the pages written by `page`, with their promises.
#![tactic(auto)]

ghost use Rattle.std.specs.Prelude.{length, take, ◌≡◌, ◌≤◌};
ghost use Rattle.page.specs.Call.{PageFigures};
ghost use Rattle.session_print.specs.Puts.{Puts};
ghost use Rattle.book.specs.Reasons.{why_none};

use book_writes::{PLACES, gather, make_trace};
use page::{Printed, print_page};
use std::io;
use streams::{buffer, read_full, say};
use test_cases::report::put_text;

// A print of so many bytes or more is not read.
const PRINT_BYTES: usize = 262144;

const PAGE_BYTES: usize = 2700;

// Memory for the print.
fn text() -> [u8; PRINT_BYTES]
    ensures { 262144 ≡ length result }
{
    [0; PRINT_BYTES]
}

// A list for the moments, and one for the outputs or the values.
fn moment_list() -> [u64; PLACES]
    ensures { 16384 ≡ length result }
{
    [0; PLACES]
}

fn word_list() -> [u32; PLACES]
    ensures { 16384 ≡ length result }
{
    [0; PLACES]
}

// A page of the lists' first so many writes.
fn put_page(
    moments: &[u64],
    outputs: &[u32],
    values: &[u32],
    count: usize,
    page: u64,
    memory: &mut [u8],
) -> Printed
    requires { (count ≤ length moments.now) × (count ≤ length outputs.now) × (count ≤ length values.now) }
    ensures { PageFigures (take count moments.now) (take count outputs.now) (take count values.now) page
        memory.old memory.new result }
{
    print_page(
        &moments[..count],
        &outputs[..count],
        &values[..count],
        page,
        memory,
    )
}

// Why no page is printed, if none is; how many bytes. The lists of a session are not turned away.
fn put_reason(out: &mut [u8], read: usize, all: bool, number: u32) -> usize
    ensures { Puts out.old 0 (why_none read all number) out.new result × (result ≤ 100) }
{
    if read == PRINT_BYTES {
        return put_text(
            out,
            0,
            b"book: the print has 262,144 bytes or more: no page is printed\n",
        );
    }
    if !all {
        return put_text(
            out,
            0,
            b"book: there are more than 16,384 writes: no page is printed\n",
        );
    }
    if number == 0 {
        return 0;
    }
    put_text(
        out,
        0,
        b"book: a moment falls, or an output is 16 or more or listed twice in a moment: no page is printed\n",
    )
}

fn main(rt: HostRuntime) -> io::Result<()> {
    let mut print = text();
    let mut input = rt.stdin();
    let read = read_full(&mut input, &mut print);
    make_trace(&mut print);
    let mut moments = moment_list();
    let mut outputs = word_list();
    let mut values = word_list();
    let gathered = gather(&print[..read], &mut moments, &mut outputs, &mut values);
    let count = gathered.count;
    let mut memory = [0u8; PAGE_BYTES];
    let first = put_page(&moments, &outputs, &values, count, 1, &mut memory);
    let mut out = buffer();
    let n = put_reason(&mut out, read, gathered.all, first.number);
    if n != 0 {
        say(&rt.stderr(), &out[..n]);
        return Ok(());
    }
    for page in 1..=first.pages {
        put_page(&moments, &outputs, &values, count, page, &mut memory);
        rt.write_all(&memory)?;
    }
    Ok(())
}
