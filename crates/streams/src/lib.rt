// Bytes into a program and out of it, over std and without heap: the words of its arguments, files read into lent bytes, and what is said
// on a standard stream. Which bytes a file has and which word an argument is, no clause can say.
#![tactic(auto)]

ghost use Rattle.std.specs.Prelude.{◌≡◌, length, take, IfOk};
ghost use Rattle.std.specs.Io.KnownBytes.{Consumes};
ghost use Rattle.streams.specs.Counts.{IsPrefixLen};

use std::env::{Env, FillError};
use std::fs::{File, Files};
use std::io::{ErrorKind, Read};
use std::{io, str};

// Room for an argument or a line.
pub fn buffer() -> [u8; 4096]
    ensures { 4096 ≡ length result }
{
    [0; 4096]
}

// Room for what one argument of a program or an hour of a schedule prints.
pub fn large_buffer() -> [u8; 65536]
    ensures { 65536 ≡ length result }
{
    [0; 65536]
}

// The word of an argument, put at the start of the lent bytes: how many bytes. None if there is no such argument, or if it does not fit.
pub fn argument(env: &impl Env, i: usize, word: &mut [u8]) -> usize
    ensures { IsPrefixLen result word.new }
{
    env.arg(i, word).unwrap_or(0)
}

// How many arguments there are, with the program's name.
pub fn argument_count(env: &impl Env) -> usize {
    let mut none = [0u8; 0];
    for i in 0..usize::MAX {
        if let Err(FillError::NotPresent) = env.arg(i, &mut none) {
            return i;
        }
    }
    usize::MAX
}

// Reads until the lent bytes are full, the input ends or a read fails; how many bytes were put at their start. They are the next of the input,
// and it has lost no others, where its bytes are known.
pub fn read_full<R: Read>(reader: &mut R, bytes: &mut [u8]) -> usize
    ensures within { IsPrefixLen result bytes.new }
    ensures next { Consumes (R.remaining reader.old) (R.remaining reader.new) (take result bytes.new) }
{
    let mut done = 0;
    // Each turn goes on by as many bytes as a read gave, which no range says.
    while done < bytes.len() {
        match reader.read(&mut bytes[done..]) {
            Ok(0) | Err(_) => break,
            Ok(count) => done += count,
        }
    }
    done
}

// Opens a file by its name in bytes. std's names are text: one that is none is refused as no file's.
pub fn open<R: Files>(files: &R, name: &[u8]) -> io::Result<R::File> {
    let path = str::from_utf8(name).map_err(|_| ErrorKind::InvalidFilename)?;
    File::open(files, path)
}

// Can a file be read on, be it past its end? A directory, for one, cannot.
fn read_on<R: Read>(file: &mut R) -> io::Result<()> {
    let mut next = buffer();
    file.read(&mut next)?;
    Ok(())
}

// The bytes of a named file, as many as the lent ones hold, if it can be read.
pub fn read_file(files: &impl Files, name: &[u8], bytes: &mut [u8]) -> io::Result<usize>
    ensures { IfOk result (λ n. IsPrefixLen n bytes.new) }
{
    let mut file = open(files, name)?;
    let count = read_full(&mut file, bytes);
    read_on(&mut file)?;
    Ok(count)
}

// Says bytes on a stream. If they cannot be written there is nowhere to say so.
pub fn say(stream: &impl Print, bytes: &[u8]) {
    let _ = stream.write_all(bytes);
}

// A figure in decimals.
pub fn say_figure(stream: &impl Print, n: u64) {
    let _ = stream.print(n);
}

// A name, and why what it names failed.
pub fn say_failed(stream: &impl Print, name: &[u8], why: io::Error) {
    say(stream, name);
    say(stream, b": ");
    let _ = stream.println(why);
}
