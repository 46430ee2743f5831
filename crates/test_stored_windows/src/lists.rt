// The lists that are lent, filled with junk, and how a call must leave them: the inputs listed in their first places, junk in all others.
ghost use Rattle.std.specs.Prelude.{◌≡◌, ◌≤◌, length, take};
ghost use Rattle.test_cases.specs.Words.{Tells};
ghost use Rattle.test_stored_windows.specs.Lists.{junk_moments, junk_words, moments_put, WordsPut};

use crate::cases::PLACES;
use test_cases::entries::read_entries;
use test_lending::machine::PATTERN;
use test_stored_answers::inputs::read_pairs;

// The pattern twice.
const MOMENT_PATTERN: u64 = 11936128518282651045;

// A list for the moments before it is lent, and one for the inputs or the values.
pub fn junk_moments() -> [u64; PLACES]
    ensures { (100 ≡ length result) × (result ≡ junk_moments) }
{
    [MOMENT_PATTERN; PLACES]
}

pub fn junk_words() -> [u32; PLACES]
    ensures { (100 ≡ length result) × (result ≡ junk_words) }
{
    [PATTERN; PLACES]
}

// Does a list hold what so many moments of the file, put into another, make of that one?
fn moments_stored(s: &[u8], at: usize, listed: u32, found: &[u64], stored: &mut [u64]) -> bool
    ensures { Tells result (found.now ≡ moments_put s.now at listed stored.old)
        × (stored.new ≡ moments_put s.now at listed stored.old) }
{
    let count = stored.len().min(listed as usize);
    read_entries(s, at, &mut stored[..count]);
    found == stored
}

// Does a list that held junk now begin with so many moments of the file, and hold junk after them?
pub fn moments_right(s: &[u8], at: usize, listed: u32, found: &[u64]) -> bool
    requires { length found.now ≤ 100 }
    ensures { Tells result (found.now ≡ moments_put s.now at listed (take (length found.now) junk_moments)) }
{
    let mut stored = junk_moments();
    let room = found.len();
    moments_stored(s, at, listed, found, &mut stored[..room])
}

// Do two lists hold what so many pairs of the file, put into two others, make of those?
fn words_stored(
    s: &[u8],
    at: usize,
    listed: u32,
    inputs: &[u32],
    values: &[u32],
    first: &mut [u32],
    second: &mut [u32],
) -> bool
    ensures { Tells result (WordsPut s.now at listed first.old second.old inputs.now values.now)
        × WordsPut s.now at listed first.old second.old first.new second.new }
{
    read_pairs(s, at, listed as usize, first, second);
    inputs == first && values == second
}

// Do two lists that held junk now begin with so many pairs of input and value of the file, and hold junk after them?
pub fn words_right(s: &[u8], at: usize, listed: u32, inputs: &[u32], values: &[u32]) -> bool
    requires { (length inputs.now ≤ 100) × (length values.now ≤ 100) }
    ensures { Tells result (WordsPut s.now at listed (take (length inputs.now) junk_words) (take (length values.now) junk_words)
        inputs.now values.now) }
{
    let mut stored_inputs = junk_words();
    let mut stored_values = junk_words();
    let i = inputs.len();
    let v = values.len();
    words_stored(
        s,
        at,
        listed,
        inputs,
        values,
        &mut stored_inputs[..i],
        &mut stored_values[..v],
    )
}
