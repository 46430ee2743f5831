// The stored cases of the valve book's pages: each is run, and what is put of it (test_page_prints) is printed, and held against the
// answers in the file `stdout`.
#![tactic(auto)]

ghost use Rattle.std.specs.Prelude.{length, ◌≡◌};

use std::io;
use streams::buffer;
use test_cases::frame::{past, word_at};
use test_cases::report::read_file;
use test_page_prints::run_case;
use test_stored_pages::cases::read_case;

// So many zeros. Of a length that is a parameter the check computes no list, which at 600,000 takes it too long.
fn zeros<const N: usize>() -> [u8; N]
    ensures { N ≡ length result }
{
    [0; N]
}

// Memory for the file of cases.
fn text() -> [u8; 600000]
    ensures { 600000 ≡ length result }
{
    zeros::<600000>()
}

// A list for the moments, and one for the outputs or the values.
fn moment_list() -> [u64; 400]
    ensures { 400 ≡ length result }
{
    [0; 400]
}

fn word_list() -> [u32; 400]
    ensures { 400 ≡ length result }
{
    [0; 400]
}

// Memory for one page.
fn page_memory() -> [u8; 2800]
    ensures { 2800 ≡ length result }
{
    [0; 2800]
}

// All cases of a file: their number (a word), then each of them.
fn main(rt: HostRuntime) -> io::Result<()> {
    let mut file = text();
    let mut moments = moment_list();
    let mut outputs = word_list();
    let mut values = word_list();
    let mut memory = page_memory();
    let mut out = buffer();
    let read = read_file(&rt, rt.stderr(), b"pages.dat", &mut file);
    let cases = word_at(&file[..read], 0);
    let mut at = past(&file[..read], 0, 4);
    for _ in 0..cases {
        let case = read_case(&file[..read], at, &mut moments, &mut outputs, &mut values);
        let n = run_case(&mut out, case, &moments, &outputs, &values, &mut memory);
        rt.write_all(&out[..n])?;
        at = case.next;
    }
    Ok(())
}
