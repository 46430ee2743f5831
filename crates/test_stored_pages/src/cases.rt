// A stored case, read into lent memory.
ghost use Rattle.std.specs.Prelude.{◌≡◌, ◌≤◌, length};
ghost use Rattle.test_stored_pages.specs.Cases.{ReadCase};

use test_cases::entries::read_entries;
use test_cases::frame::{moment_at, past, word_at};

// No stored list is longer, and no stored memory.
const PLACES: usize = 400;

const MEMORY: usize = 2800;

// A count that is stored, at most so many.
fn count_at(s: &[u8], at: usize, most: usize) -> usize
    ensures { result ≤ most }
{
    most.min(word_at(s, at) as usize)
}

// A stored case without its lists: its name, their lengths, the page, the memory's length and the byte that fills it; the place past it.
#[derive(Clone, Copy)]
pub struct Case {
    pub name: u32,
    pub moments: usize,
    pub outputs: usize,
    pub values: usize,
    pub page: u64,
    pub size: usize,
    pub byte: u8,
    pub next: usize,
}

// A case is its name and the lengths of its three lists (words), the lists, the page (a moment), the memory's length and its byte (words).
pub fn read_case(
    s: &[u8],
    at: usize,
    moments: &mut [u64],
    outputs: &mut [u32],
    values: &mut [u32],
) -> Case
    requires { (length moments.old ≡ 400) × (length outputs.old ≡ 400) × (length values.old ≡ 400) }
    ensures { ReadCase moments.new outputs.new values.new result }
{
    let name = word_at(s, at);
    let m = count_at(s, past(s, at, 4), PLACES);
    let o = count_at(s, past(s, at, 8), PLACES);
    let v = count_at(s, past(s, at, 12), PLACES);
    let first = past(s, at, 16);
    let second = read_entries(s, first, &mut moments[..m]);
    let third = read_entries(s, second, &mut outputs[..o]);
    let end = read_entries(s, third, &mut values[..v]);
    let size = count_at(s, past(s, end, 8), MEMORY);
    let byte = (word_at(s, past(s, end, 12)) % 256) as u8;
    Case {
        name,
        moments: m,
        outputs: o,
        values: v,
        page: moment_at(s, end),
        size,
        byte,
        next: past(s, end, 16),
    }
}
