// The fields of a slot's row. (One function for each: what tells them apart is the field of the row that the contract names.)
#![tactic(auto, using(engine_blocks::proofs::RowChanges::row_of, crate::proofs::Readings::nonzero_test), unfolding(engine_blocks::specs::Blocks::row_at))]

ghost use Rattle.std.specs.Prelude.{◌≡◌, min};
ghost use Rattle.machine.specs.Words.{AtSlot};
ghost use Rattle.engine_blocks.specs.Blocks.{block, rows_of};

use engine_blocks::word_at;
use machine::{
    ASLEEP, BASE, BITS, CHILD, CHILDREN, IN_USE, LEVEL, LOW, OWN, PARENT, PLACE, ROUTINE,
};

// Whether a live routine sits here.
pub fn used(m: &[u32], s: usize) -> bool
    requires { AtSlot m.now s }
    ensures { result ≡ (rows_of m.now s).used }
{
    word_at(m, s, IN_USE) != 0
}

// Whether it has been at a wait since before this instant.
pub fn asleep(m: &[u32], s: usize) -> bool
    requires { AtSlot m.now s }
    ensures { result ≡ (rows_of m.now s).asleep }
{
    word_at(m, s, ASLEEP) != 0
}

// The parent's slot; main's is 64. (No Option: the `parent` of the contract's row is this number.)
pub fn parent(m: &[u32], s: usize) -> usize
    requires { AtSlot m.now s }
    ensures { result ≡ (rows_of m.now s).parent }
{
    let word = word_at(m, s, PARENT);
    word as usize
}

// Main's is 0.
pub fn level(m: &[u32], s: usize) -> u32
    requires { AtSlot m.now s }
    ensures { result ≡ (rows_of m.now s).level }
{
    word_at(m, s, LEVEL)
}

// The number of the child field that made the routine.
pub fn child(m: &[u32], s: usize) -> u32
    requires { AtSlot m.now s }
    ensures { result ≡ (rows_of m.now s).child }
{
    word_at(m, s, CHILD)
}

// The instruction that it is at.
pub fn place(m: &[u32], s: usize) -> u32
    requires { AtSlot m.now s }
    ensures { result ≡ (rows_of m.now s).place }
{
    word_at(m, s, PLACE)
}

// How many of its children live.
pub fn children(m: &[u32], s: usize) -> u32
    requires { AtSlot m.now s }
    ensures { result ≡ (rows_of m.now s).children }
{
    word_at(m, s, CHILDREN)
}

// The lowest of its priorities.
pub fn low(m: &[u32], s: usize) -> u32
    requires { AtSlot m.now s }
    ensures { result ≡ (rows_of m.now s).low }
{
    word_at(m, s, LOW)
}

// It has 2 to so many priorities.
pub fn bits(m: &[u32], s: usize) -> u32
    requires { AtSlot m.now s }
    ensures { result ≡ (rows_of m.now s).bits }
{
    word_at(m, s, BITS)
}

// Its number in the listing.
pub fn routine(m: &[u32], s: usize) -> u32
    requires { AtSlot m.now s }
    ensures { result ≡ (rows_of m.now s).routine }
{
    word_at(m, s, ROUTINE)
}

// The address of its first own variable on the path from the environment.
pub fn base(m: &[u32], s: usize) -> u32
    requires { AtSlot m.now s }
    ensures { result ≡ (rows_of m.now s).base }
{
    word_at(m, s, BASE)
}

// The number of its own variables.
pub fn own_count(m: &[u32], s: usize) -> usize
    requires { AtSlot m.now s }
    ensures { result ≡ min (block m.now s 4) 16 }
{
    word_at(m, s, OWN).min(16) as usize
}
