// Question 7, slot by slot: a slot is free and all 0, or holds a record that the order list leads to, at rest. `m` is the machine's
// memory; nothing is changed.
#![tactic(auto)]

ghost use Rattle.std.specs.Prelude.{◌≡◌, ◌≤◌, ◌<◌, length, true};
ghost use Rattle.machine.specs.Words.{slot_holds, slots_hold, MachineLong};
ghost use Rattle.machine.specs.Due.{due_at};
ghost use Rattle.walk.specs.Instant.{earlier};
ghost use Rattle.machine_words.specs.Tests.{test_of, tested, slot_due_lem, slots_due, SlotDues, Dues};
ghost use Rattle.machine_check_slots.specs.Kept.{slots_kept};

use machine::{BLOCK_WORDS, BLOCKS, KEPT_UNUSED, OWN, SLOTS};
use machine_words::due::sooner;
use machine_words::{block_rests, zero_from};
use words::{Moment, number};

// Is slot s free and all 0, or does the order list of n routines lead back to it?
pub fn slot_holds(m: &[u32], n: usize, s: usize, present: Moment) -> Option<u64>
    requires { MachineLong m.now × (s < 64) × (n ≤ 64) }
    ensures { test_of result ≡ tested (slot_holds n present.0 m.now s) (slot_due_lem m.now s) }
{
    let at = BLOCKS + s * BLOCK_WORDS;
    let p = number(m[at]);
    if p == 0 {
        if !zero_from(m, at, BLOCK_WORDS) {
            return None;
        }
        return Some(0);
    }
    if n < p {
        return None;
    }
    if number(m[63 + p]) != s {
        return None;
    }
    if !zero_from(m, at + KEPT_UNUSED, 3) {
        return None;
    }
    let k = number(m[at + OWN]);
    block_rests(m, at, k, present)
}

// All slots, with the sooner of a moment due (0: none) and theirs; the soonest of each is kept.
pub fn slots_hold(
    m: &[u32],
    n: usize,
    present: Moment,
    due: u64,
    dues: &mut [u64; 65],
) -> Option<u64>
    requires { MachineLong m.now × (n ≤ 64) }
    ensures { (test_of result ≡ tested (slots_hold n present.0 m.now 64) (earlier (due_at due) (slots_due m.now 64)))
        × (slots_hold n present.0 m.now 64 ≡ true → SlotDues 0 m.now dues.old dues.new)
        × (dues.new ≡ slots_kept n present.0 m.now 64 dues.old) }
{
    let mut found = due;
    for s in (0..SLOTS).rev() {
        let here = slot_holds(m, n, s, present)?;
        dues[s] = here;
        found = sooner(found, here);
    }
    Some(found)
}
