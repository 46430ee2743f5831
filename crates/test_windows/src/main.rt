// Spans of schedules with the inputs stored for each, listed by the library. Lists of the lengths that a case gives are filled with junk and lent.
// Prints each case that fails, and then how many agree.
#![tactic(auto)]

ghost use Rattle.std.specs.Prelude.{◌≡◌, ◌≤◌, length, take};
ghost use Rattle.session_print.specs.Puts.{Puts};
ghost use Rattle.test_cases.specs.Words.{Tells};
ghost use Rattle.test_stored_windows.specs.Lists.{junk_moments, junk_words};
ghost use Rattle.test_windows.specs.Cases.{stored_figures, ListsRight, Called, LineRight, CaseAgrees, failure_line};
ghost use Rattle.test_windows.specs.Files.{RanFile};

use session_print::figure::put_figure;
use std::io;
use std::io::Stdout;
use streams::{buffer, say};
use test_cases::frame::{past, word_at};
use test_cases::report::{Tally, put_summary, put_text, read_file, stored_cases};
use test_stored_windows::cases::{Case, case_at};
use test_stored_windows::lists::{junk_moments, junk_words, moments_right, words_right};
use windows::{Listed, list_windows};
use windows_trace::schedules::first_bad_line;

// Are the figures those stored with the case?
fn figures_right(case: Case, found: Listed) -> bool
    ensures { Tells result (stored_figures case ≡ found) }
{
    (case.number, case.place, case.listed as u64) == (found.number, found.place, found.listed)
}

// Makes the case's call on lists of junk. Are the figures those stored, and the lists as they must be left?
fn lists_right(
    s: &[u8],
    case: Case,
    moments: &mut [u64],
    inputs: &mut [u32],
    values: &mut [u32],
) -> bool
    requires { (case.from ≤ case.to) × (case.to ≤ length s.now) × (moments.old ≡ take case.moments junk_moments)
        × (inputs.old ≡ take case.inputs junk_words) × (values.old ≡ take case.values junk_words) }
    ensures { Tells result (ListsRight s.now case moments.old inputs.old values.old)
        × Called s.now case moments.old inputs.old values.old moments.new inputs.new values.new }
{
    let from = case.from;
    let to = case.to;
    let found = list_windows(&s[from..to], case.first, case.end, moments, inputs, values);
    if !figures_right(case, found) {
        return false;
    }
    if !moments_right(s, case.edges, case.listed, moments) {
        return false;
    }
    words_right(s, case.pairs, case.listed, inputs, values)
}

// Is the first line where question 19 says no the one stored with the case?
fn line_right(s: &[u8], case: Case) -> bool
    requires { (case.from ≤ case.to) × (case.to ≤ length s.now) }
    ensures { Tells result (LineRight s.now case) }
{
    let from = case.from;
    let to = case.to;
    first_bad_line(&s[from..to]) == case.line as usize
}

// Does the case agree?
fn run_case(s: &[u8], case: Case) -> bool
    requires { (case.from ≤ case.to) × (case.to ≤ length s.now) × (case.moments ≤ 100) × (case.inputs ≤ 100) × (case.values ≤ 100) }
    ensures { Tells result (CaseAgrees s.now case) }
{
    let mut moments = junk_moments();
    let mut inputs = junk_words();
    let mut values = junk_words();
    let m = case.moments;
    let i = case.inputs;
    let v = case.values;
    if !lists_right(
        s,
        case,
        &mut moments[..m],
        &mut inputs[..i],
        &mut values[..v],
    ) {
        return false;
    }
    line_right(s, case)
}

// Which case fails, as a line put into lent bytes; how many bytes.
fn put_failure(out: &mut [u8], name: u32) -> usize
    ensures { Puts out.old 0 (failure_line name) out.new result × (result ≤ 60) }
{
    let a = put_text(out, 0, b"case ");
    let b = put_figure(out, a, name as u64);
    put_text(out, b, b" fails\n")
}

// All cases of a file: their number, then each of them.
fn run_file(stdout: Stdout, s: &[u8]) -> Tally
    ensures { RanFile s.now result }
{
    let cases = u64::from(word_at(s, 0));
    let mut at = past(s, 0, 4);
    let mut failed = 0;
    for done in 0..cases {
        let case = case_at(s, at);
        if !run_case(s, case) {
            let mut line = buffer();
            let n = put_failure(&mut line, case.name);
            say(&stdout, &line[..n]);
            failed += 1;
        }
        at = case.next;
    }
    Tally { cases, failed }
}

fn main(rt: HostRuntime) -> io::Result<()> {
    let mut file = stored_cases();
    let length = read_file(&rt, rt.stderr(), b"windows.dat", &mut file);
    let tally = run_file(rt.stdout(), &file[..length]);
    let mut line = buffer();
    let n = put_summary(&mut line, b"windows: ", tally);
    rt.write_all(&line[..n])
}
