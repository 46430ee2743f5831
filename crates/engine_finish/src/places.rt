// The header's words, and the place in the walking order that each live routine's block knows.
ghost use Rattle.std.specs.Prelude.{◌≤◌};
ghost use Rattle.machine.specs.Words.{HasMachine};
ghost use Rattle.engine_order.specs.Listed.{listed_in_lem, SlotsBelow};
ghost use Rattle.engine_order.specs.Placed.{SlotsDiffer, PlacesSet, HeaderCleared};

use machine::{BLOCKS, ORDER};

// The words before the blocks made 0.
pub fn clear_header(m: &mut [u32])
    requires { HasMachine m.old }
    ensures { HeaderCleared 328 m.old m.new }
{
    m[..BLOCKS].fill(0);
}

// In the block of each of the first `count` slots listed: its place, counted from 1.
pub fn set_places(m: &mut [u32], count: usize)
    requires { HasMachine m.old × (count ≤ 64) × SlotsBelow (listed_in_lem m.old count) × SlotsDiffer (listed_in_lem m.old count) }
    ensures { PlacesSet count m.old m.new }
{
    for k in 0..count {
        let slot = m[ORDER + k] as usize;
        engine_blocks::put_word(m, slot, 0, (k + 1) as u32);
    }
}
