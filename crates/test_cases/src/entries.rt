// Lists of a file of cases: so many entries one behind another, each a word or a moment.
ghost use Rattle.std.specs.Prelude.{◌≡◌, List, ℕ, length};
ghost use Rattle.test_cases.specs.Frame.{word_at, moment_at, onward};
ghost use Rattle.test_cases.specs.Entries.{entries_from, place_after_lem};

use crate::frame::{moment_at, past, word_at};

// What a file has in so many bytes, and how it is read there.
pub trait Entry: Copy {
    ghost BYTES: { ℕ };

    const BYTES: usize;

    ghost entry: { List ℕ → ℕ → Self };

    fn entry_at(s: &[u8], at: usize) -> Self
        ensures { result ≡ entry s.now at };
}

impl Entry for u32 {
    ghost BYTES = { 4 };

    const BYTES: usize = 4;

    ghost entry = { word_at };

    fn entry_at(s: &[u8], at: usize) -> u32 {
        word_at(s, at)
    }
}

impl Entry for u64 {
    ghost BYTES = { 8 };

    const BYTES: usize = 8;

    ghost entry = { moment_at };

    fn entry_at(s: &[u8], at: usize) -> u64 {
        moment_at(s, at)
    }
}

// As many entries as a list holds, put into it; the place past them.
pub fn read_entries<T: Entry>(s: &[u8], at: usize, list: &mut [T]) -> usize
    ensures filled { list.new ≡ entries_from (T.entry s.now) (λ place. onward s.now place T.BYTES) at (length list.old) }
    ensures after { result ≡ place_after_lem (λ place. onward s.now place T.BYTES) at (length list.old) }
{
    let mut place = at;
    for entry in list.iter_mut() {
        *entry = T::entry_at(s, place);
        place = past(s, place, T::BYTES);
    }
    place
}
