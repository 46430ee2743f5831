// A write before any routine runs passes along the trigger list of its variable, and puts all who sleep into the ready list. `m` is
// the machine's memory.
#![tactic(auto)]

ghost use Rattle.std.specs.Prelude.{◌≡◌, ◌≤◌, ◌<◌};
ghost use Rattle.machine.specs.Words.{HasMachine};
ghost use Rattle.engine_rows.specs.Ready.{insert_all_lem};
ghost use Rattle.engine_blocks.specs.Blocks.{rows_of};
ghost use Rattle.engine_ready.specs.Slots.{slots_of};
ghost use Rattle.engine_ready.specs.Ordered.{Ordered};
ghost use Rattle.engine_triggers.specs.Chains.{triggers_at};
ghost use Rattle.engine_wake.specs.Wakes.{triggered_from};
ghost use Rattle.engine_wake_all.specs.First.{goes_first};

use engine_ready::ReadyList;
use engine_wake::wake_from;
use machine::{FIRST_TRIGGERS, NEXT_TRIGGERS};
use words::number;

// Whether trigger `next` is there, numbered up to `most`, and its slot sleeps and comes before the first, which has priority `low`.
fn goes_first(m: &[u32], next: usize, most: usize, low: Option<u32>) -> bool
    requires { HasMachine m.now × (most ≤ 256) }
    ensures { result ≡ goes_first (rows_of m.now) next most low }
{
    if next == 0 {
        return false;
    }
    if next > most {
        return false;
    }
    let slot = (next - 1) / 4;
    if !engine_row::asleep(m, slot) {
        return false;
    }
    let own = engine_row::low(m, slot);
    match low {
        Some(first) => own < first,
        None => true,
    }
}

// A due write or an input, before any routine runs: it reaches all who await the variable. As a rule each goes before all who
// are ready: these are gathered, and put there in one go, since a push by value copies the whole list right behind its store. Else each is pushed.
pub fn wake_all(m: &[u32], q: ReadyList, s: usize, index: usize) -> ReadyList
    requires { HasMachine m.now × (s ≤ 64) × (index < 16) × (Ordered (rows_of m.now) (slots_of q)) }
    ensures { (slots_of result ≡ insert_all_lem (rows_of m.now) (triggered_from (rows_of m.now) 0 (triggers_at m.now s index)) (slots_of q))
        × (Ordered (rows_of m.now) (slots_of result)) }
{
    let mut next = number(engine_blocks::word_at(m, s, FIRST_TRIGGERS + index));
    let mut most: usize = 256;
    let mut low = engine_push::first_low(m, q);
    let mut new = [0u8; 64];
    let mut count: usize = 0;
    // (A `while`: the list is linked by its words, each of which tells the next.)
    while goes_first(m, next, most, low) {
        most = next - 1;
        let slot = most / 4;
        low = Some(engine_row::low(m, slot));
        new[count] = slot as u8;
        count += 1;
        next = number(engine_blocks::word_at(m, slot, NEXT_TRIGGERS + most % 4));
    }
    if next > 0 {
        return wake_from(m, q, s, index, 0);
    }
    engine_ready::put_first(q, &new[..count])
}
