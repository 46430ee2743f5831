// The words of a new routine's row but for its variables and names.
ghost use Rattle.std.specs.Prelude.{◌≡◌, ◌+◌, ◌*◌, ◌^◌, ◌≤◌, ◌<◌, length};
ghost use Rattle.machine.specs.Words.{HasMachine, AtSlot};
ghost use Rattle.engine_blocks.specs.Blocks.{block, rows_of};
ghost use Rattle.engine_blocks.specs.Changes.{InBlock};
ghost use Rattle.engine_new_rows.specs.NewRow.{MayDivide, ParentIs, Reaches, kept_block, working_block};

use engine_blocks::{put_word, word_at};
use engine_fork_bits::fork_bits;
use machine::{ASLEEP, BASE, BITS, CHILD, CHILDREN, IN_USE, LEVEL, LOW, OWN, PARENT, ROUTINE};

// What a new routine's row takes from its parent: the parent's slot (main's is 64; no Option: `working_block` puts this very number), the new routine's level, the address of its
// first own variable, the lowest of the parent's priorities, the bits of each child's range.
#[derive(Clone, Copy)]
pub struct Parent {
    pub slot: usize,
    pub level: u32,
    pub base: u32,
    pub low: u32,
    pub bits: u32,
}

// The routine in slot `me` as the parent of n children: "A fork of n children divides its priority range by the fewest bits that
// number n children". Document 02: "Every fork takes them from a table".
pub fn parent_of(m: &[u32], me: usize, n: u32) -> Parent
    requires { HasMachine m.now × (me < 64) × MayDivide (rows_of m.now) me n }
    ensures { ParentIs (rows_of m.now) me n result }
{
    let bits = engine_row::bits(m, me) - fork_bits(n);
    let level = engine_row::level(m, me) + 1;
    let base = engine_row::base(m, me) + engine_row::own_count(m, me) as u32;
    let low = engine_row::low(m, me);
    Parent {
        slot: me,
        level,
        base,
        low,
        bits,
    }
}

// The lowest priority of child number i.
fn low_of(p: Parent, i: u32) -> u32
    requires { Reaches p i }
    ensures { result ≡ p.low + i * 2 ^ p.bits }
{
    let bits = p.bits;
    let before = (i as u64) << bits;
    (p.low as u64 + before) as u32
}

// In use, level, child field, number of own variables.
pub fn put_kept(m: &mut [u32], s: usize, level: u32, i: u32, own: u32)
    requires { AtSlot m.old s }
    ensures { InBlock s m.old m.new (kept_block (block m.old s) level i own) }
{
    put_word(m, s, IN_USE, 1);
    put_word(m, s, LEVEL, level);
    put_word(m, s, CHILD, i);
    put_word(m, s, OWN, own);
}

// The working words of child number i, which runs this routine.
pub fn put_working(m: &mut [u32], s: usize, p: Parent, i: u32, asleep: u32, routine: u32)
    requires { HasMachine m.old × (s < 64) × (p.slot ≤ 64) × Reaches p i }
    ensures { InBlock s m.old m.new (working_block (block m.old s) p i asleep routine) }
{
    put_word(m, s, ASLEEP, asleep);
    put_word(m, s, PARENT, p.slot as u32);
    put_word(m, s, CHILDREN, 0);
    put_word(m, s, LOW, low_of(p, i));
    put_word(m, s, BITS, p.bits);
    put_word(m, s, ROUTINE, routine);
    put_word(m, s, BASE, p.base);
}
