// Sessions with what each must print: listing and trace are played step by step, and every piece is held against the stored print.
// Prints the name of each session that fails, and then how many agree.
#![tactic(auto)]

pub mod playing;

ghost use Rattle.std.specs.Prelude.{true, ◌≡◌, length};
ghost use Rattle.test_cases.specs.Words.{Tells};
ghost use Rattle.walk.specs.Calls.{memory_words};
ghost use Rattle.session_replay.specs.Advancing.{long_enough};
ghost use Rattle.session_replay.specs.Ending.{AsLong};
ghost use Rattle.session_replay.specs.Phases.{memories};
ghost use Rattle.test_sessions.specs.Cases.{CaseAt, Inside, Agrees, Ran};

use crate::playing::plays;
use std::io;
use std::io::Stdout;
use streams::{buffer, say, say_figure};
use table::TABLE_WORDS;
use test_cases::frame::{part_at, past, word_at};
use test_cases::report::{Tally, put_summary, read_file, stored_cases};

// A case of the file: its name, where listing, trace and print begin and end. The next case follows the print.
#[derive(Clone, Copy, Debug, PartialEq, Eq)]
pub struct Case {
    pub name: u32,
    pub listing: usize,
    pub listing_to: usize,
    pub trace: usize,
    pub trace_to: usize,
    pub print: usize,
    pub print_to: usize,
}

fn case_at(s: &[u8], at: usize) -> Case
    ensures { CaseAt s.now at result × Inside s.now result }
{
    let name = word_at(s, at);
    let listing = part_at(s, past(s, at, 4));
    let trace = part_at(s, listing.to);
    let print = part_at(s, trace.to);
    Case {
        name,
        listing: listing.from,
        listing_to: listing.to,
        trace: trace.from,
        trace_to: trace.to,
        print: print.from,
        print_to: print.to,
    }
}

// Plays the case, and says so if it fails.
fn run_case(
    stdout: Stdout,
    s: &[u8],
    case: Case,
    table: &mut [u32],
    machine: &mut [u32],
    out: &mut [u8],
) -> bool
    requires { Inside s.now case × (long_enough table.old machine.old out.old ≡ true) }
    ensures { Tells result (Agrees s.now case)
        × AsLong (memories table.old machine.old out.old)
        (memories table.new machine.new out.new) }
{
    let listing = case.listing;
    let listing_to = case.listing_to;
    let trace = case.trace;
    let trace_to = case.trace_to;
    let print = case.print;
    let print_to = case.print_to;
    let right = plays(
        &s[listing..listing_to],
        &s[trace..trace_to],
        &s[print..print_to],
        table,
        machine,
        out,
    );
    if !right {
        say(&stdout, b"session ");
        say_figure(&stdout, case.name as u64);
        say(&stdout, b" fails\n");
    }
    right
}

// All cases of a file: their number, then each of them.
fn run_file(
    stdout: Stdout,
    s: &[u8],
    table: &mut [u32],
    machine: &mut [u32],
    out: &mut [u8],
) -> Tally
    requires { long_enough table.old machine.old out.old ≡ true }
    ensures { Ran s.now result
        × AsLong (memories table.old machine.old out.old)
        (memories table.new machine.new out.new) }
{
    let cases = u64::from(word_at(s, 0));
    let mut at = past(s, 0, 4);
    let mut failed = 0;
    for done in 0..cases {
        let case = case_at(s, at);
        if !run_case(stdout, s, case, table, machine, out) {
            failed += 1;
        }
        at = case.print_to;
    }
    Tally { cases, failed }
}

// A table or a machine: both have as many words.
fn memory() -> [u32; TABLE_WORDS]
    ensures { memory_words ≡ length result }
{
    [0; TABLE_WORDS]
}

// What one step prints.
fn piece() -> [u8; 1100]
    ensures { 1100 ≡ length result }
{
    [0; 1100]
}

fn main(rt: HostRuntime) -> io::Result<()> {
    let mut file = stored_cases();
    let length = read_file(&rt, rt.stderr(), b"sessions.dat", &mut file);
    let mut table = memory();
    let mut machine = memory();
    let mut out = piece();
    let tally = run_file(
        rt.stdout(),
        &file[..length],
        &mut table,
        &mut machine,
        &mut out,
    );
    let mut line = buffer();
    let n = put_summary(&mut line, b"sessions: ", tally);
    rt.write_all(&line[..n])
}
