// Words of lent memory: filled, copied and compared.
ghost use Rattle.std.specs.Prelude.{◌≡◌, min, length, replicate, drop};
ghost use Rattle.std.specs.List.{list_all};
ghost use Rattle.test_cases.specs.Words.{Tells, copied, Begin};

// The first words copied, as many as both memories have.
pub fn copy(from: &[u32], to: &mut [u32])
    ensures { to.new ≡ copied from.now to.old (min (length from.now) (length to.old)) }
{
    let count = from.len().min(to.len());
    to[..count].copy_from_slice(&from[..count]);
}

// Is every place w, by the type's `==`? Of words and bytes that is: is it w alone (proofs Telling `all_words`).
pub fn all_are<T: Copy + Eq>(m: &[T], w: T) -> bool
    ensures { result ≡ list_all (λ x. T.eq x w) m.now }
{
    m.iter().all(|x| *x == w)
}

// Is every word from a place on w?
pub fn all_from(m: &[u32], from: usize, w: u32) -> bool
    ensures { Tells result (drop from m.now ≡ replicate (length (drop from m.now)) w) }
{
    all_are(&m[from.min(m.len())..], w)
}

// Have both memories so many words, and the same ones?
pub fn same_to(a: &[u32], b: &[u32], count: usize) -> bool
    ensures { Tells result (Begin a.now b.now count) }
{
    count <= a.len() && count <= b.len() && a[..count] == b[..count]
}
