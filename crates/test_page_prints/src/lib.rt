// A stored case of the valve book's pages, run, and what it gives and leaves, put into lent bytes. A case's line has number, place, pages, and
// whether all bytes that must stay are as they were; then follow the rows that are not rows of spaces, each with its line, from 0.
#![tactic(auto)]

ghost use Rattle.std.specs.Prelude.{◌+◌, ◌≤◌, ◌<◌, length, ◌≡◌};
ghost use Rattle.session_print.specs.Puts.{Puts};
ghost use Rattle.test_page_prints.specs.Prints.{numbers_of, kept_word_lem, case_line, RowPut, RowsPut, CaseSaid, CaseRun};

use page::{Printed, print_page};
use session_print::figure::put_figure;
use test_cases::memories::all_are;
use test_cases::report::put_text;
use test_stored_pages::cases::Case;

const PAGE_BYTES: usize = 2700;

const ROW_BYTES: usize = 45;

const ROWS: usize = 60;

// A row with its line before it, or nothing of a row of spaces; the place past it.
fn put_row(out: &mut [u8], at: usize, page: &[u8], line: usize) -> usize
    requires { (at ≤ 10000) × (line < 60) × (2700 ≤ length page.now) }
    ensures { RowPut page.now line out.old at out.new result }
{
    let from = line * ROW_BYTES;
    let to = from + ROW_BYTES;
    let end = to - 1;
    if all_are(&page[from..end], b' ') {
        return at;
    }
    let a = put_figure(out, at, line as u64);
    let b = put_text(out, a, b" ");
    put_text(out, b, &page[from..to])
}

// The rows that are not rows of spaces; the place past them.
fn put_rows(out: &mut [u8], at: usize, page: &[u8]) -> usize
    requires { (at ≤ 1000) × (2700 ≤ length page.now) }
    ensures { RowsPut page.now out.old at out.new result }
{
    let mut next = at;
    for line in 0..ROWS {
        next = put_row(out, next, page, line);
    }
    next
}

// Number, place and pages; the place past them.
fn put_numbers(out: &mut [u8], at: usize, r: Printed) -> usize
    requires { at ≤ 1000 }
    ensures { Puts out.old at (numbers_of r) out.new result × (result ≤ at + 62) }
{
    let a = put_figure(out, at, r.number as u64);
    let b = put_text(out, a, b" ");
    let c = put_figure(out, b, r.place as u64);
    let d = put_text(out, c, b" ");
    put_figure(out, d, r.pages)
}

// Whether all bytes that must stay are as they were; the place past it.
fn put_kept(out: &mut [u8], at: usize, kept: bool) -> usize
    requires { at ≤ 1000 }
    ensures { Puts out.old at (kept_word_lem kept) out.new result × (result ≤ at + 9) }
{
    if kept {
        put_text(out, at, b" kept\n")
    } else {
        put_text(out, at, b" touched\n")
    }
}

// A case's line; how many bytes.
fn put_line(out: &mut [u8], name: u32, r: Printed, kept: bool) -> usize
    ensures { Puts out.old 0 (case_line name r kept) out.new result × (result ≤ 98) }
{
    let a = put_text(out, 0, b"case ");
    let b = put_figure(out, a, name as u64);
    let c = put_text(out, b, b": ");
    let d = put_numbers(out, c, r);
    put_kept(out, d, kept)
}

// What the call left: of a refusal no byte is touched, of a page none past it; how many bytes.
fn put_case(out: &mut [u8], name: u32, r: Printed, memory: &[u8], byte: u8) -> usize
    ensures { CaseSaid name r memory.now byte out.old out.new result × (result ≤ 4058) }
{
    if r.number != 0 {
        return put_line(out, name, r, all_are(memory, byte));
    }
    if memory.len() < PAGE_BYTES {
        return put_line(out, name, r, false);
    }
    let kept = all_are(&memory[PAGE_BYTES..], byte);
    let a = put_line(out, name, r, kept);
    put_rows(out, a, memory)
}

// The call on the case's lists and memory, and what it gives and leaves, put into lent bytes; how many bytes.
pub fn run_case(
    out: &mut [u8],
    case: Case,
    moments: &[u64],
    outputs: &[u32],
    values: &[u32],
    memory: &mut [u8],
) -> usize
    requires { (case.moments ≤ length moments.now) × (case.outputs ≤ length outputs.now) × (case.values ≤ length values.now) × (case.size ≤ length memory.old) }
    ensures { CaseRun case moments.now outputs.now values.now memory.new out.old out.new result
        × (result ≤ 4058) × (length memory.new ≡ length memory.old) }
{
    let m = case.moments;
    let o = case.outputs;
    let v = case.values;
    let size = case.size;
    memory.fill(case.byte);
    let r = print_page(
        &moments[..m],
        &outputs[..o],
        &values[..v],
        case.page,
        &mut memory[..size],
    );
    put_case(out, case.name, r, &memory[..size], case.byte)
}
