// The frame of a file of cases: words of 4 bytes, the lowest first, and parts, each a word, its length, and then so many bytes.
// Past the end of the file every byte reads as 0, and every place is the end.
ghost use Rattle.std.specs.Prelude.{◌≡◌, ◌<◌, get_or};
ghost use Rattle.test_cases.specs.Frame.{word_of, word_at, onward, moment_at, PartAt};

fn byte_at(s: &[u8], at: usize) -> u8
    ensures { result ≡ get_or s.now at 0 }
{
    s.get(at).copied().unwrap_or(0)
}

// The word in the first 4 bytes.
fn first_word(s: &[u8]) -> u32
    ensures { result ≡ word_of s.now }
{
    u32::from_le_bytes([byte_at(s, 0), byte_at(s, 1), byte_at(s, 2), byte_at(s, 3)])
}

// The word that stands at a place.
pub fn word_at(s: &[u8], at: usize) -> u32
    ensures { result ≡ word_at s.now at }
{
    s.get(at..).map_or(0, first_word)
}

// The place so many bytes on, or the end.
pub fn past(s: &[u8], at: usize, count: usize) -> usize
    ensures { result ≡ onward s.now at count }
{
    at.saturating_add(count).min(s.len())
}

// Where the bytes of a part begin and end.
#[derive(Clone, Copy)]
pub struct Part {
    pub from: usize,
    pub to: usize,
}

// The part whose length stands at a place.
pub fn part_at(s: &[u8], at: usize) -> Part
    ensures { PartAt s.now at result }
{
    let count = word_at(s, at) as usize;
    let from = past(s, at, 4);
    let to = past(s, from, count);
    Part { from, to }
}

// A moment: two words, the low one first.
pub fn moment_at(s: &[u8], at: usize) -> u64
    ensures { result ≡ moment_at s.now at }
{
    let low = word_at(s, at);
    let high = word_at(s, past(s, at, 4));
    u64::from(low) + 4294967296 * u64::from(high)
}
