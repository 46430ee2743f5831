// Rule 1 of document 01: "Every waiting write due at t is made, and is gone." A write made passes along the trigger list of its variable.
// Question 7's pass has kept the soonest moment due of each block (`dues`: place s for slot s, 64 for the environment; 0: none, so
// that these numbers are bare). Where that is not the present moment, nothing of the block is due now, and the block is not looked at.
ghost use Rattle.std.specs.Prelude.{◌≡◌, ℕ, ◌≤◌, ◌<◌, min, length, get_or};
ghost use Rattle.machine.specs.Words.{HasMachine};
ghost use Rattle.engine_blocks.specs.Blocks.{block, owner_at, rows_of};
ghost use Rattle.engine_variables.specs.Bindings.{variables_beside};
ghost use Rattle.engine_blocks.specs.Changes.{InBlock};
ghost use Rattle.engine_blocks.specs.Store.{store_of};
ghost use Rattle.engine_ready.specs.Slots.{slots_of};
ghost use Rattle.engine_ready.specs.Ordered.{Ordered};
ghost use Rattle.engine_due.specs.Passes.{due_first, due_slot, Mapped};
ghost use Rattle.engine_due.specs.Beginnings.{DueMade, DuesTell};
ghost use Rattle.engine_due.specs.Reaching.{Unwritten, NothingWritten, ReachesOne, Reaches};

use engine_ready::ReadyList;
use machine::{ENVIRONMENT, IN_USE, SLOTS};
use words::Moment;

// Those who await variable `index` of block s are ready, if it is written. Nothing is written before the due writes, so that a mark is theirs.
fn wake_if_written(m: &[u32], ready: ReadyList, s: usize, index: usize) -> ReadyList
    requires { HasMachine m.now × (s ≤ 64) × (index < 16) × (Ordered (rows_of m.now) (slots_of ready)) }
    ensures { ReachesOne m.now s index (slots_of ready) (slots_of result) }
{
    if engine_variables::written(m, s, index) {
        return engine_wake_all::wake_all(m, ready, s, index);
    }
    ready
}

// The first `count` variables of block s.
fn make_due_in(
    m: &mut [u32],
    ready: ReadyList,
    s: usize,
    count: usize,
    present: Moment,
) -> ReadyList
    requires { HasMachine m.old × (s ≤ 64) × (count ≤ 16) × (0 < present.0) × (Ordered (rows_of m.old) (slots_of ready)) }
    ensures { (InBlock s m.old m.new (due_first count present.0 (block m.old s)))
        × (Ordered (rows_of m.new) (slots_of result))
        × ((n : ℕ) → count ≤ length (variables_beside (store_of n m.old) (owner_at s 0)) → Unwritten count (block m.old s)
        → Reaches n m.old m.new (slots_of ready) (slots_of result)) }
{
    let mut woken = ready;
    for i in 0..count {
        engine_make_due::make_due(m, s, i, present);
        woken = wake_if_written(m, woken, s, i);
    }
    woken
}

// The own variables of the routine in slot s, if one sits there and the soonest of them is due now.
fn make_due_slot(m: &mut [u32], ready: ReadyList, s: usize, present: Moment, due: u64) -> ReadyList
    requires { HasMachine m.old × (s < 64) × (0 < present.0)
        × ((due ≡ present.0 → ⊥) → due_slot present.0 (block m.old s) ≡ block m.old s)
        × (Ordered (rows_of m.old) (slots_of ready)) }
    ensures { (InBlock s m.old m.new (due_slot present.0 (block m.old s)))
        × (Ordered (rows_of m.new) (slots_of result))
        × ((n : ℕ) → Unwritten (min (block m.old s 4) 16) (block m.old s)
        → Reaches n m.old m.new (slots_of ready) (slots_of result)) }
{
    if due != present.0 {
        return ready;
    }
    let taken = engine_blocks::word_at(m, s, IN_USE);
    if taken == 0 {
        return ready;
    }
    let count = engine_row::own_count(m, s);
    make_due_in(m, ready, s, count, present)
}

// All slots.
fn make_due_slots(m: &mut [u32], ready: ReadyList, present: Moment, dues: &[u64; 65]) -> ReadyList
    requires { HasMachine m.old × (0 < present.0) × (length dues.now ≡ 65)
        × ((s : ℕ) → s < 64 → (get_or dues.now s 0 ≡ present.0 → ⊥) → due_slot present.0 (block m.old s) ≡ block m.old s)
        × (Ordered (rows_of m.old) (slots_of ready)) }
    ensures { (Mapped 64 (due_slot present.0) m.old m.new)
        × (Ordered (rows_of m.new) (slots_of result))
        × ((n : ℕ) → NothingWritten n m.old → Reaches n m.old m.new (slots_of ready) (slots_of result)) }
{
    let mut woken = ready;
    for s in 0..SLOTS {
        woken = make_due_slot(m, woken, s, present, dues[s]);
    }
    woken
}

// All slots, and the n variables of the environment.
pub fn make_due_at(
    m: &mut [u32],
    ready: ReadyList,
    n: usize,
    present: Moment,
    dues: &[u64; 65],
) -> ReadyList
    requires { HasMachine m.old × (n ≤ 16) × (0 < present.0) × (length dues.now ≡ 65) × (DuesTell n present.0 dues.now m.old)
        × (Ordered (rows_of m.old) (slots_of ready)) }
    ensures { (DueMade n present.0 m.old m.new)
        × (Ordered (rows_of m.new) (slots_of result))
        × (NothingWritten n m.old → Reaches n m.old m.new (slots_of ready) (slots_of result)) }
{
    let woken = make_due_slots(m, ready, present, dues);
    if dues[ENVIRONMENT] != present.0 {
        return woken;
    }
    make_due_in(m, woken, ENVIRONMENT, n, present)
}
