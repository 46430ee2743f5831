// How much of a memory is lent, and a first word that no table and no machine has.
ghost use Rattle.std.specs.Prelude.{◌≡◌, ◌-◌, min, length, get_or, set};
ghost use Rattle.streams.specs.Counts.{IsPrefixLen};
ghost use Rattle.test_lending.specs.Places.{lent_places, spoilt_first};

// How much of a memory is lent: all, or only so many places if this is what is spoilt.
pub fn lent(m: &[u32], spoil: u32, which: u32, places: usize) -> usize
    ensures { IsPrefixLen result m.now × (result ≡ lent_places spoil which places m.now) }
{
    if spoil == which {
        places.min(m.len())
    } else {
        m.len()
    }
}

// The first word made w if this is what is spoilt; answers what it was, or 0 if there is none.
pub fn spoil_first(words: &mut [u32], spoil: u32, which: u32, w: u32) -> u32
    ensures { (result ≡ get_or words.old 0 0) × (words.new ≡ spoilt_first spoil which w words.old) }
{
    let Some(first) = words.first_mut() else {
        return 0;
    };
    let was = *first;
    if spoil == which {
        *first = w;
    }
    was
}
