// The words of a block, by offset. All reads and stores of the machine's blocks are these. Block 64 is the environment's.
ghost use Rattle.std.specs.Prelude.{◌≡◌, ◌≤◌, ◌<◌};
ghost use Rattle.machine.specs.Words.{HasMachine};
ghost use Rattle.engine_blocks.specs.Blocks.{block};
ghost use Rattle.engine_blocks.specs.Changes.{InBlock, put_in, cleared};

use machine::{BLOCK_WORDS, BLOCKS};

// One word of block s.
pub fn word_at(m: &[u32], s: usize, offset: usize) -> u32
    requires { HasMachine m.now × (s ≤ 64) × (offset < 184) }
    ensures { result ≡ block m.now s offset }
{
    m[BLOCKS + s * BLOCK_WORDS + offset]
}

// One word of block s stored.
pub fn put_word(m: &mut [u32], s: usize, offset: usize, v: u32)
    requires { HasMachine m.old × (s ≤ 64) × (offset < 184) }
    ensures { InBlock s m.old m.new (put_in (block m.old s) offset v) }
{
    m[BLOCKS + s * BLOCK_WORDS + offset] = v;
}

// The words of block s from one offset up to another made 0.
pub fn clear_words(m: &mut [u32], s: usize, from: usize, to: usize)
    requires { HasMachine m.old × (s ≤ 64) × (from ≤ to) × (to ≤ 184) }
    ensures { InBlock s m.old m.new (cleared from to (block m.old s)) }
{
    let start = BLOCKS + s * BLOCK_WORDS;
    m[start + from..start + to].fill(0);
}
