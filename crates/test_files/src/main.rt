// The session program's ends that its own stored run does not show: no argument, no such file, a file that cannot be read, a failing write, and a
// session after all of these. What a run prints stands before the line that says how it ended.
#![tactic(auto)]

ghost use Rattle.std.specs.Prelude.{◌≤◌, [], Some};
ghost use Rattle.session_print.specs.Puts.{Puts};
ghost use Rattle.test_files.specs.Endings.{ending_line, EndingSaid};

use session_files::{Ending, play_files};
use std::env::Env;
use std::fs::Files;
use std::io;
use std::io::{ErrorKind, Stderr, Write};
use streams::buffer;
use test_cases::report::put_text;

// A writer that is closed: every write fails, and it never holds a byte.
#[derive(Drop)]
struct Closed;

impl Write for Closed {
    ghost contents = { λ _. Some [] };

    fn write(&mut self, _bytes: &[u8]) -> io::Result<usize> {
        Err(io::Error::from(ErrorKind::BrokenPipe))
    }

    fn flush(&mut self) -> io::Result<()> {
        Ok(())
    }
}

// How a run ended, as a line put into lent bytes; how many bytes.
fn put_ending(out: &mut [u8], ending: Ending) -> usize
    ensures { Puts out.old 0 (ending_line ending) out.new result × (result ≤ 12) }
{
    match ending {
        Ending::Ended => put_text(out, 0, b"ended\n"),
        Ending::NotWritten => put_text(out, 0, b"not written\n"),
        Ending::NotRead => put_text(out, 0, b"not read\n"),
    }
}

// Plays the files that two arguments name, and puts how it ended; how many bytes.
fn play<R: Env + Files, W: Write>(
    rt: &R,
    errors: Stderr,
    out: &mut [u8],
    first: usize,
    second: usize,
    writer: &mut W,
) -> usize
    ensures { EndingSaid out.old out.new result × (result ≤ 12) }
{
    put_ending(out, play_files(rt, errors, first, second, writer))
}

// Arguments 1 and 2 are a listing and a trace, 3 names no file, 4 is a directory, and there is no fifth.
fn main(rt: HostRuntime) -> io::Result<()> {
    let errors = rt.stderr();
    let mut output = rt.stdout();
    let mut out = buffer();
    let a = play(&rt, errors, &mut out, 1, 5, &mut output);
    rt.write_all(&out[..a])?;
    let b = play(&rt, errors, &mut out, 5, 2, &mut output);
    rt.write_all(&out[..b])?;
    let c = play(&rt, errors, &mut out, 1, 3, &mut output);
    rt.write_all(&out[..c])?;
    let d = play(&rt, errors, &mut out, 3, 2, &mut output);
    rt.write_all(&out[..d])?;
    let e = play(&rt, errors, &mut out, 1, 4, &mut output);
    rt.write_all(&out[..e])?;
    let f = play(&rt, errors, &mut out, 4, 2, &mut output);
    rt.write_all(&out[..f])?;
    let g = play(&rt, errors, &mut out, 1, 2, &mut Closed);
    rt.write_all(&out[..g])?;
    let h = play(&rt, errors, &mut out, 1, 2, &mut output);
    rt.write_all(&out[..h])
}
