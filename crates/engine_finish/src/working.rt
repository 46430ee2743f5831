// The working words of an instant, offsets 7 and 104 to 183 of each block, are 0 between calls.
ghost use Rattle.std.specs.Prelude.{◌≤◌};
ghost use Rattle.machine.specs.Words.{HasMachine};
ghost use Rattle.engine_blocks.specs.Blocks.{block};
ghost use Rattle.engine_blocks.specs.Changes.{InBlock};
ghost use Rattle.engine_due.specs.Passes.{Mapped};
ghost use Rattle.engine_finish.specs.Ended.{idle_block, WorkingCleared};

use machine::{BLOCK_WORDS, ENVIRONMENT, SLOTS, WORKING};

// Those of block s.
fn clear_block(m: &mut [u32], s: usize)
    requires { HasMachine m.old × (s ≤ 64) }
    ensures { InBlock s m.old m.new (idle_block (block m.old s)) }
{
    engine_blocks::clear_words(m, s, WORKING, BLOCK_WORDS);
    engine_blocks::put_word(m, s, 7, 0);
}

// Those of the slots.
fn clear_slots(m: &mut [u32])
    requires { HasMachine m.old }
    ensures { Mapped 64 idle_block m.old m.new }
{
    for s in 0..SLOTS {
        clear_block(m, s);
    }
}

// Those of all blocks, the slots' and the environment's.
pub fn clear_working(m: &mut [u32])
    requires { HasMachine m.old }
    ensures { WorkingCleared m.old m.new }
{
    clear_slots(m);
    clear_block(m, ENVIRONMENT);
}
