// Lists of calls with the answer stored for each: a listing is loaded, and start, instant and comparison are called on its table.
// Prints each item that fails, with what was expected and what was found, and then how many lists agree.
// "Spoil" in the file says what is wrong with the memories lent to one call.
#![tactic(auto)]

ghost use Rattle.std.specs.Prelude.{◌≡◌, ◌≤◌};
ghost use Rattle.session_print.specs.Puts.{Puts};
ghost use Rattle.test_calls.specs.Failures.{failure_line};
ghost use Rattle.test_calls.specs.Cases.{LoadsInto, RanItems, RanCase, RanFile};

use call_load::load;
use session_print::figure::put_figure;
use std::io;
use std::io::Stdout;
use streams::{buffer, say};
use test_cases::frame::{part_at, past, word_at};
use test_cases::report::{Tally, put_summary, put_text, read_file, stored_cases};
use test_lending::machine::unused_memory;
use test_stored_items::items::{after_item, run_item};
use text_questions::Loaded;

// Does a listing load? If not it says so.
fn loads(stdout: Stdout, listing: &[u8], table: &mut [u32]) -> bool
    ensures { LoadsInto listing.now table.old table.new result }
{
    match load(listing, table) {
        Loaded::Done => true,
        Loaded::Refused(_, _) => {
            say(&stdout, b"a listing does not load\n");
            false
        }
    }
}

// Which item of which case fails, as a line put into lent bytes; how many bytes.
fn put_failure(out: &mut [u8], name: u32, item: u64) -> usize
    ensures { Puts out.old 0 (failure_line name item) out.new result × (result ≤ 60) }
{
    let a = put_text(out, 0, b"case ");
    let b = put_figure(out, a, name as u64);
    let c = put_text(out, b, b", item ");
    let d = put_figure(out, c, item);
    put_text(out, d, b" fails\n")
}

// How far a list of items has been run: the place after it, and how many failed.
#[derive(Clone, Copy)]
pub struct Run {
    pub next: usize,
    pub failed: u64,
}

// The items of a case, one after the other, on one table and one machine, each as the item before left it.
fn run_items(
    stdout: Stdout,
    s: &[u8],
    from: usize,
    name: u32,
    count: u32,
    table: &mut [u32],
    machine: &mut [u32],
    kept: &mut [u32],
) -> Run
    ensures { RanItems s.now from table.old machine.old kept.old
        table.new machine.new kept.new count result }
{
    let mut at = from;
    let mut failed = 0;
    for done in 0..u64::from(count) {
        if !run_item(stdout, s, at, table, machine, kept) {
            let mut line = buffer();
            let n = put_failure(&mut line, name, done);
            say(&stdout, &line[..n]);
            failed += 1;
        }
        at = after_item(s, at);
    }
    Run { next: at, failed }
}

// A case: its name, its listing, the number of its items and the items. A listing that does not load counts as a failure too.
fn run_case(stdout: Stdout, s: &[u8], at: usize) -> Run
    ensures { RanCase s.now at result }
{
    let name = word_at(s, at);
    let part = part_at(s, past(s, at, 4));
    let from = part.from;
    let to = part.to;
    let mut table = unused_memory();
    let mut machine = unused_memory();
    let mut kept = unused_memory();
    let loaded = loads(stdout, &s[from..to], &mut table);
    let count = word_at(s, to);
    let first = past(s, to, 4);
    let run = run_items(
        stdout,
        s,
        first,
        name,
        count,
        &mut table,
        &mut machine,
        &mut kept,
    );
    Run {
        next: run.next,
        failed: u64::from(!loaded) + run.failed,
    }
}

// All cases of a file: their number, then each of them.
fn run_file(stdout: Stdout, s: &[u8]) -> Tally
    ensures { RanFile s.now result }
{
    let cases = u64::from(word_at(s, 0));
    let mut at = past(s, 0, 4);
    let mut failed = 0;
    for done in 0..cases {
        let run = run_case(stdout, s, at);
        if run.failed != 0 {
            failed += 1;
        }
        at = run.next;
    }
    Tally { cases, failed }
}

fn main(rt: HostRuntime) -> io::Result<()> {
    let mut file = stored_cases();
    let length = read_file(&rt, rt.stderr(), b"calls.dat", &mut file);
    let tally = run_file(rt.stdout(), &file[..length]);
    let mut line = buffer();
    let n = put_summary(&mut line, b"calls: ", tally);
    rt.write_all(&line[..n])
}
