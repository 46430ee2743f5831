// A session played from files. Document 01: "A session program reads a listing file and a trace file and prints the writes."
// Every byte that it prints is printed by `session_replay::advance`, whose steps from the opening to the end print the session.
#![tactic(auto)]

ghost use Rattle.std.specs.Prelude.{◌≡◌, length, true, IfSome};
ghost use Rattle.std.specs.Io.KnownBytes.{Appends};
ghost use Rattle.streams.specs.Counts.{IsPrefixLen};
ghost use Rattle.walk.specs.Calls.{memory_words};
ghost use Rattle.session_replay.specs.Advancing.{long_enough};
ghost use Rattle.session_replay.specs.Ending.{is_over};
ghost use Rattle.session_replay.specs.Phases.{memories};
ghost use Rattle.session_files.specs.Turning.{Turned, PieceWritten, Ran, SessionWritten, Played, FilesPlayed, FilesWritten};

use session_replay::{Advanced, Phase};
use std::env::Env;
use std::fs::Files;
use std::io::{Stderr, Write};
use streams::{buffer, read_file, say, say_failed};
use table::TABLE_WORDS;

// A byte more than the 49,152 that a listing or a trace may have: a longer file is cut there, and its length alone decides.
fn text() -> [u8; 49153]
    ensures { 49153 ≡ length result }
{
    [0; 49153]
}

// A table or a machine: both have as many words.
fn memory() -> [u32; TABLE_WORDS]
    ensures { memory_words ≡ length result }
{
    [0; TABLE_WORDS]
}

// What one step prints.
fn piece() -> [u8; 1100]
    ensures { 1100 ≡ length result }
{
    [0; 1100]
}

// Reads the file that an argument names: how many bytes were put into the lent ones, or nothing, having said why, if it cannot.
// Which bytes a file has, std does not promise.
fn read_argument<R: Env + Files>(rt: &R, errors: Stderr, i: usize, text: &mut [u8]) -> Option<usize>
    ensures { IfSome result (λ count. IsPrefixLen count text.new) }
{
    let mut path = buffer();
    let Ok(length) = rt.arg(i, &mut path) else {
        say(
            &errors,
            b"session: two file names are wanted, the listing's and the trace's\n",
        );
        return None;
    };
    match read_file(rt, &path[..length], text) {
        Ok(count) => Some(count),
        Err(why) => {
            say_failed(&errors, &path[..length], why);
            None
        }
    }
}

// Is all printed?
fn is_over(phase: Phase) -> bool
    ensures { result ≡ is_over phase }
{
    match phase {
        Phase::Opening => false,
        Phase::Starting => false,
        Phase::Reading(_, _) => false,
        Phase::Over => true,
    }
}

// A turn: the next phase, and whether what it printed was written out, as the writer told it.
#[derive(Clone, Copy)]
struct Stepped {
    next: Phase,
    is_written: bool,
}

// What a step printed is written out; having said why, if it cannot be. A writer whose bytes are known has got it then: a standard stream's are not.
fn write_out<W: Write>(writer: &mut W, errors: Stderr, printed: &[u8]) -> bool
    ensures { result ≡ true → Appends (W.contents writer.old) (W.contents writer.new) printed.now }
{
    match writer.write_all(printed) {
        Ok(()) => true,
        Err(why) => {
            say_failed(&errors, b"session: writing", why);
            false
        }
    }
}

// One step, and what it prints is written out to a writer.
fn turn<W: Write>(
    writer: &mut W,
    errors: Stderr,
    listing: &[u8],
    trace: &[u8],
    table: &mut [u32],
    machine: &mut [u32],
    out: &mut [u8],
    phase: Phase,
) -> Stepped
    requires { long_enough table.old machine.old out.old ≡ true }
    ensures step { Turned listing.now trace.now
        (memories table.old machine.old out.old) phase
        (memories table.new machine.new out.new) result }
    ensures bytes { PieceWritten listing.now trace.now
        (memories table.old machine.old out.old) phase
        (memories table.new machine.new out.new) result
        (W.contents writer.old) (W.contents writer.new) }
{
    let answer = session_replay::advance(listing, trace, table, machine, out, phase);
    match answer {
        Advanced::Went(next, printed) => {
            let is_written = write_out(writer, errors, &out[..printed]);
            Stepped { next, is_written }
        }
        // never: the memories are long enough
        Advanced::TooShort => Stepped {
            next: Phase::Over,
            is_written: false,
        },
    }
}

// How a session ended.
#[derive(Clone, Copy)]
pub enum Ending {
    // all is printed
    Ended,
    // what the last turn printed could not be written out
    NotWritten,
    // a file could not be read: nothing is printed
    NotRead,
}

// The steps to the end: each leaves fewer to be made, so that no turns are counted.
fn run<W: Write>(
    writer: &mut W,
    errors: Stderr,
    listing: &[u8],
    trace: &[u8],
    table: &mut [u32],
    machine: &mut [u32],
    out: &mut [u8],
) -> Ending
    requires { long_enough table.old machine.old out.old ≡ true }
    ensures steps { Ran listing.now trace.now
        (memories table.old machine.old out.old)
        (memories table.new machine.new out.new) result }
    ensures bytes { SessionWritten listing.now trace.now result
        (W.contents writer.old) (W.contents writer.new) }
{
    let mut phase = Phase::Opening;
    while !is_over(phase) {
        let made = turn(writer, errors, listing, trace, table, machine, out, phase);
        if !made.is_written {
            return Ending::NotWritten;
        }
        let next = made.next;
        phase = next;
    }
    Ending::Ended
}

// The session on memories of its own.
fn play<W: Write>(writer: &mut W, errors: Stderr, listing: &[u8], trace: &[u8]) -> Ending
    ensures played { Played listing.now trace.now result }
    ensures bytes { SessionWritten listing.now trace.now result
        (W.contents writer.old) (W.contents writer.new) }
{
    let mut table = memory();
    let mut machine = memory();
    let mut out = piece();
    run(
        writer,
        errors,
        listing,
        trace,
        &mut table,
        &mut machine,
        &mut out,
    )
}

// The session of the files that two arguments name, printed to a writer; having said why, if it is not.
pub fn play_files<R: Env + Files, W: Write>(
    rt: &R,
    errors: Stderr,
    first: usize,
    second: usize,
    writer: &mut W,
) -> Ending
    ensures played { FilesPlayed result }
    ensures bytes { FilesWritten result (W.contents writer.old) (W.contents writer.new) }
{
    let mut listing = text();
    let Some(listed) = read_argument(rt, errors, first, &mut listing) else {
        return Ending::NotRead;
    };
    let mut trace = text();
    let Some(traced) = read_argument(rt, errors, second, &mut trace) else {
        return Ending::NotRead;
    };
    play(writer, errors, &listing[..listed], &trace[..traced])
}
