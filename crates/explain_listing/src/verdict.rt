// What loading says of a file.
ghost use Rattle.std.specs.Prelude.{◌≡◌, IfSome, length};
ghost use Rattle.explain_listing.specs.Verdicts.{VerdictOn};
ghost use Rattle.streams.specs.Counts.{IsPrefixLen};
ghost use Rattle.table.specs.Areas.{table_size};

use call_load::load;
use std::fs::Files;
use std::io::Stderr;
use streams::{read_file, say_failed};
use table::TABLE_WORDS;
use text_questions::Loaded;

// How many bytes of a file were read: as many as there is room for. None of a file that cannot be read, a directory for one, which is named on standard error.
pub fn read_listing<R: Files>(
    files: &R,
    errors: Stderr,
    path: &[u8],
    listing: &mut [u8],
) -> Option<usize>
    ensures read { IfSome result (λ count. IsPrefixLen count listing.new) }
    ensures length { length listing.new ≡ length listing.old }
{
    match read_file(files, path, listing) {
        Ok(count) => Some(count),
        Err(why) => {
            say_failed(&errors, path, why);
            None
        }
    }
}

// Why a listing is not loaded: too long, or the question that fails and its place.
#[derive(Clone, Copy, Debug, PartialEq, Eq)]
pub enum Refusal {
    TooLong,
    Fails(u32, usize),
}

// Document 01: "listing 49,152 bytes".
const LONGEST: usize = 49152;

pub fn table() -> [u32; TABLE_WORDS]
    ensures { table_size ≡ length result }
{
    [0; TABLE_WORDS]
}

pub fn judge(listing: &[u8]) -> Result<(), Refusal>
    ensures { VerdictOn listing.now result }
{
    if listing.len() > LONGEST {
        return Err(Refusal::TooLong);
    }
    let mut words = table();
    let answer = load(listing, &mut words);
    match answer {
        Loaded::Done => Ok(()),
        Loaded::Refused(number, place) => Err(Refusal::Fails(number, place)),
    }
}
