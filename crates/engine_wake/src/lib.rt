// A write passes along the trigger list of its variable, and puts those who sleep into the ready list. `m` is the machine's memory.
#![tactic(auto)]

ghost use Rattle.std.specs.Prelude.{◌≡◌, ◌+◌, ◌≤◌, ◌<◌};
ghost use Rattle.machine.specs.Words.{HasMachine};
ghost use Rattle.engine_rows.specs.Ready.{insert_all_lem, insert_if};
ghost use Rattle.engine_rows.specs.Triggers.{triggered};
ghost use Rattle.engine_blocks.specs.Blocks.{rows_of};
ghost use Rattle.engine_ready.specs.Slots.{slots_of};
ghost use Rattle.engine_ready.specs.Ordered.{Ordered};
ghost use Rattle.engine_triggers.specs.Chains.{triggers_at};
ghost use Rattle.engine_wake.specs.Wakes.{wakes, triggered_from};

use engine_ready::ReadyList;
use machine::{FIRST_TRIGGERS, NEXT_TRIGGERS};
use words::number;

// Slot s put into the ready list, if it sleeps and its lowest priority is `from` or above.
fn wake_one(m: &[u32], q: ReadyList, s: usize, from: u64) -> ReadyList
    requires { HasMachine m.now × (s < 64) × (Ordered (rows_of m.now) (slots_of q)) }
    ensures { slots_of result ≡ insert_if (wakes (rows_of m.now) from s) (rows_of m.now) s (slots_of q) }
{
    if !engine_row::asleep(m, s) {
        return q;
    }
    let low = engine_row::low(m, s) as u64;
    if low < from {
        return q;
    }
    engine_push::push(m, q, s)
}

// The ready list after a write to variable `index` of block s, which reaches the sleepers whose lowest priority is `from` or above.
pub fn wake_from(m: &[u32], q: ReadyList, s: usize, index: usize, from: u64) -> ReadyList
    requires { HasMachine m.now × (s ≤ 64) × (index < 16) × (Ordered (rows_of m.now) (slots_of q)) }
    ensures { (slots_of result ≡ insert_all_lem (rows_of m.now) (triggered_from (rows_of m.now) from (triggers_at m.now s index)) (slots_of q))
        × (Ordered (rows_of m.now) (slots_of result)) }
{
    let mut next = number(engine_blocks::word_at(m, s, FIRST_TRIGGERS + index));
    if next > 256 {
        return q;
    }
    let mut woken = q;
    // (A `while`: the list is linked by its words, each of which tells the next.)
    while next > 0 {
        let n = next - 1;
        let slot = n / 4;
        woken = wake_one(m, woken, slot, from);
        next = number(engine_blocks::word_at(m, slot, NEXT_TRIGGERS + n % 4));
        if next > n {
            return woken;
        }
    }
    woken
}

// A write by a routine whose lowest priority is `low`: it reaches those who come later.
pub fn wake(m: &[u32], q: ReadyList, s: usize, index: usize, low: u32) -> ReadyList
    requires { HasMachine m.now × (s ≤ 64) × (index < 16) × (Ordered (rows_of m.now) (slots_of q)) }
    ensures { (slots_of result ≡ insert_all_lem (rows_of m.now) (triggered (rows_of m.now) low (triggers_at m.now s index)) (slots_of q))
        × (Ordered (rows_of m.now) (slots_of result)) }
{
    wake_from(m, q, s, index, low as u64 + 1)
}
