// Listings with the number and place stored for each, run through the loader.
// Prints each case that fails, with what was expected and what was found, and then how many agree.
#![tactic(auto)]

pub mod figures;

ghost use Rattle.std.specs.Prelude.{◌≡◌};
ghost use Rattle.test_cases.specs.Words.{Tells};
ghost use Rattle.test_load.specs.Cases.{CaseAt, Untouched, Written, TablesRight, Ran};
ghost use Rattle.test_load.specs.Files.{RanFile, RanSome, RanShort};

use crate::figures::{Figures, load_figures};
use std::fs::Files;
use std::io;
use std::io::{Stderr, Stdout};
use streams::{buffer, say, say_figure};
use table::{CELL_END, TABLE_WORDS};
use test_cases::frame::{part_at, past, word_at};
use test_cases::memories::{all_are, all_from, same_to};
use test_cases::report::{Tally, put_summary, read_file, stored_cases};

// The word that a table is filled with before it is lent.
const PATTERN: u32 = 2779096485;

// A table with one word too few, and the name of that case.
const SHORT_WORDS: usize = TABLE_WORDS - 1;

const SHORT_NAME: u32 = 12287;

// A case of the file is its name (a word), its listing (a part), number and place (words). Here: the name, where the listing begins and ends,
// the figures stored, and the place after the case.
#[derive(Clone, Copy)]
pub struct Case {
    pub name: u32,
    pub from: usize,
    pub to: usize,
    pub number: u32,
    pub place: u64,
    pub next: usize,
}

fn case_at(s: &[u8], at: usize) -> Case
    ensures { CaseAt s.now at result }
{
    let name = word_at(s, at);
    let part = part_at(s, past(s, at, 4));
    let from = part.from;
    let to = part.to;
    let number = word_at(s, to);
    let after = past(s, to, 4);
    let place = word_at(s, after) as u64;
    let next = past(s, after, 4);
    Case {
        name,
        from,
        to,
        number,
        place,
        next,
    }
}

// Are the figures those expected? If not it says so.
fn agree(stdout: Stdout, name: u32, expected: Figures, found: Figures) -> bool
    ensures { Tells result (expected ≡ found) }
{
    let same = expected == found;
    if !same {
        say(&stdout, b"case ");
        say_figure(&stdout, name as u64);
        say(&stdout, b": expected ");
        say_figure(&stdout, expected.number as u64);
        say(&stdout, b" at ");
        say_figure(&stdout, expected.place);
        say(&stdout, b", found ");
        say_figure(&stdout, found.number as u64);
        say(&stdout, b" at ");
        say_figure(&stdout, found.place);
        say(&stdout, b"\n");
    }
    same
}

// After a call on two tables, one of PATTERN alone and one of 0 alone: are they still so?
fn untouched(table: &[u32], other: &[u32]) -> bool
    ensures { Tells result (Untouched table.now other.now) }
{
    if !all_are(table, PATTERN) {
        return false;
    }
    all_are(other, 0)
}

// Are they as loading must leave them?
fn written(table: &[u32], other: &[u32]) -> bool
    ensures { Tells result (Written table.now other.now) }
{
    if !all_from(table, TABLE_WORDS, PATTERN) {
        return false;
    }
    if !all_from(other, TABLE_WORDS, 0) {
        return false;
    }
    if !same_to(table, other, TABLE_WORDS) {
        return false;
    }
    all_from(&table[..TABLE_WORDS], CELL_END, 0)
}

// Are they as a call with this number must leave them?
fn as_left(table: &[u32], other: &[u32], number: u32) -> bool
    ensures { Tells result (TablesRight number table.now other.now) }
{
    if number == 0 {
        written(table, other)
    } else {
        untouched(table, other)
    }
}

// The same; if they are not, it says so.
fn tables_right(stdout: Stdout, name: u32, table: &[u32], other: &[u32], number: u32) -> bool
    ensures { Tells result (TablesRight number table.now other.now) }
{
    let right = as_left(table, other, number);
    if !right {
        say(&stdout, b"case ");
        say_figure(&stdout, name as u64);
        say(&stdout, b": a table is not as it must be\n");
    }
    right
}

// Loads a listing into two tables. Are the figures those expected, and the tables as they must be?
fn run_case(
    stdout: Stdout,
    listing: &[u8],
    table: &mut [u32],
    other: &mut [u32],
    name: u32,
    expected: Figures,
) -> bool
    ensures { Ran listing.now table.old other.old table.new other.new expected result }
{
    table.fill(PATTERN);
    other.fill(0);
    let found = load_figures(listing, table);
    let again = load_figures(listing, other);
    if !agree(stdout, name, expected, found) {
        return false;
    }
    if !agree(stdout, name, expected, again) {
        return false;
    }
    tables_right(stdout, name, table, other, found.number)
}

// All cases of a file: their number, then each of them.
fn run_file(stdout: Stdout, s: &[u8], table: &mut [u32], other: &mut [u32]) -> Tally
    ensures { RanFile s.now table.old other.old table.new other.new result }
{
    let cases = u64::from(word_at(s, 0));
    let mut at = past(s, 0, 4);
    let mut failed = 0;
    for done in 0..cases {
        let case = case_at(s, at);
        let from = case.from;
        let to = case.to;
        let expected = Figures {
            number: case.number,
            place: case.place,
        };
        if !run_case(stdout, &s[from..to], table, other, case.name, expected) {
            failed += 1;
        }
        at = case.next;
    }
    Tally { cases, failed }
}

fn run_path<R: Files>(
    files: &R,
    errors: Stderr,
    stdout: Stdout,
    path: &[u8],
    table: &mut [u32],
    other: &mut [u32],
) -> Tally
    ensures { RanSome table.old other.old table.new other.new result }
{
    let mut file = stored_cases();
    let length = read_file(files, errors, path, &mut file);
    run_file(stdout, &file[..length], table, other)
}

// Question 1: "Table 12,288 words of 32 bits", one word too few. Does the case agree?
fn short_tables(stdout: Stdout, table: &mut [u32], other: &mut [u32]) -> bool
    ensures { RanShort table.old other.old table.new other.new result }
{
    if table.len() < SHORT_WORDS {
        return false;
    }
    if other.len() < SHORT_WORDS {
        return false;
    }
    let expected = Figures {
        number: 1,
        place: 0,
    };
    let listing = b"P\t1\t1\nR\trr\t0\nW\t0\nS\t1\t#1\nA\t1\t#60000\t#0\nW\t1\nG\t0\n";
    run_case(
        stdout,
        listing,
        &mut table[..SHORT_WORDS],
        &mut other[..SHORT_WORDS],
        SHORT_NAME,
        expected,
    )
}

fn main(rt: HostRuntime) -> io::Result<()> {
    let stdout = rt.stdout();
    let errors = rt.stderr();
    let mut table = [0u32; 12300];
    let mut other = [0u32; 12300];
    let short = short_tables(stdout, &mut table, &mut other);
    let many = run_path(&rt, errors, stdout, b"loads.dat", &mut table, &mut other);
    let long = run_path(&rt, errors, stdout, b"long.dat", &mut table, &mut other);
    let tally = Tally {
        cases: 1 + many.cases + long.cases,
        failed: u64::from(!short) + many.failed + long.failed,
    };
    let mut line = buffer();
    let n = put_summary(&mut line, b"load: ", tally);
    rt.write_all(&line[..n])
}
