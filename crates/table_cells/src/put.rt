// Words in a row, stored from an address on.
ghost use Rattle.std.specs.Prelude.{◌≡◌, set, ◌≤◌};
ghost use Rattle.std.proofs.lemmas.List.Edits.{sets};

// One word. A store past the end is none; the limits rule it out.
pub fn put(t: &mut [u32], a: usize, v: u32)
    ensures { t.new ≡ set t.old a v }
{
    if a < t.len() {
        t[a] = v;
    }
}

// Five words in a row: an entry of a routine or of an instruction.
pub fn put_entry(t: &mut [u32], e: usize, words: [u32; 5])
    requires { e ≤ 12288 }
    ensures { t.new ≡ sets t.old e words }
{
    let [first, second, third, fourth, fifth] = words;
    put(t, e, first);
    put(t, e + 1, second);
    put(t, e + 2, third);
    put(t, e + 3, fourth);
    put(t, e + 4, fifth);
}
