// The parts of a text: lines between line feeds, fields between tabs, pieces between spaces.
ghost use Rattle.std.specs.Prelude.{◌≡◌, ◌≤◌, length};
ghost use Rattle.listing.specs.Bytes.{split};
ghost use Rattle.explain_parts.specs.Parts.{part_end, part_of};

// Where the part at an offset ends: at its separator, or with the text.
pub fn part_end(s: &[u8], separator: u8, at: usize) -> usize
    requires { at ≤ length s.now }
    ensures { (result ≡ part_end separator s.now at) × (at ≤ result) × (result ≤ length s.now) }
{
    match s[at..].iter().position(|b| *b == separator) {
        Some(k) => at + k,
        None => s.len(),
    }
}

// The part that has so many parts before it; an empty one if the text has no such part.
pub fn part_of(s: &[u8], separator: u8, parts: usize) -> &[u8]
    ensures is { result.now ≡ part_of separator s.now parts }
    ensures within { length result.now ≤ length s.now }
{
    match s.split(|b| *b == separator).nth(parts) {
        Some(part) => part,
        None => &[],
    }
}

// How many parts a text has: one more than there are separators.
pub fn count_parts(s: &[u8], separator: u8) -> usize
    requires { length s.now ≤ 100000 }
    ensures { result ≡ length (split separator s.now) }
{
    s.split(|b| *b == separator).count()
}
