// Are the machine's words in place? The part of question 7 that needs no table: the header, the order list, the slots and the blocks.
// Every function takes the 12,288 words, or an address in them; none changes them.
#![tactic(auto)]

ghost use Rattle.std.specs.Prelude.{◌≡◌, ◌≤◌, ◌<◌, length, get_or, true};
ghost use Rattle.machine.specs.Words.{knows_place, know_places, header_in_place, blocks_in_place, words_in_place, MachineLong};
ghost use Rattle.machine.specs.ReadMachine.{stopped_words};
ghost use Rattle.machine.specs.Due.{words_due};
ghost use Rattle.machine_words.specs.Tests.{test_of, tested, blocks_due, Dues};
ghost use Rattle.machine_check_slots.specs.Kept.{blocks_kept, words_kept};

use machine::{
    BLOCK_WORDS, BLOCKS, ENVIRONMENT, ENVIRONMENT_AT, FIRST_STOP, LAST_STOP, LIVE, MACHINE_WORDS,
    ORDER, ORDER_WORDS, SLOTS, UNUSED,
};
use machine_check_slots::slots_hold;
use machine_words::{block_rests, present_moment, zero_from};
use words::number;

// Is the slot of the k-th routine in order one, and does its block know the place?
#[tactic(auto, unfolding(machine::specs::Words::knows_place))]
pub fn knows_place(m: &[u32], k: usize) -> bool
    requires { MachineLong m.now × (k < 64) }
    ensures { result ≡ knows_place m.now k }
{
    let s = number(m[ORDER + k]);
    s < SLOTS && number(m[BLOCKS + s * BLOCK_WORDS]) == k + 1
}

pub fn know_places(m: &[u32], n: usize) -> bool
    requires { MachineLong m.now × (n ≤ 64) }
    ensures { result ≡ know_places m.now n }
{
    for k in (0..n).rev() {
        if !knows_place(m, k) {
            return false;
        }
    }
    true
}

#[tactic(auto, unfolding(machine::specs::Words::header_in_place))]
pub fn header_in_place(m: &[u32]) -> bool
    requires { MachineLong m.now }
    ensures { result ≡ header_in_place m.now }
{
    let n = number(m[LIVE]);
    m[0] == 0
        && n <= SLOTS
        && zero_from(m, UNUSED, 60)
        && know_places(m, n)
        && zero_from(m, ORDER + n, ORDER_WORDS - n)
}

pub fn blocks_in_place(m: &[u32], n: usize, size: usize, dues: &mut [u64; 65]) -> Option<u64>
    requires { MachineLong m.now × (n ≤ 64) × (n ≡ get_or m.now 3 0) }
    ensures { (test_of result ≡ tested (blocks_in_place size m.now) (blocks_due size m.now))
        × (blocks_in_place size m.now ≡ true → Dues size m.now dues.new)
        × (dues.new ≡ blocks_kept size m.now dues.old) }
{
    let present = present_moment(m);
    if !zero_from(m, ENVIRONMENT_AT, 8) {
        return None;
    }
    let outer = block_rests(m, ENVIRONMENT_AT, size, present)?;
    dues[ENVIRONMENT] = outer;
    slots_hold(m, n, present, outer, dues)
}

// All of question 7 that needs no table but the number of environment variables, with the next moment due, and the soonest of each block.
pub fn words_in_place(m: &[u32], size: usize, dues: &mut [u64; 65]) -> Option<u64>
    requires { MachineLong m.now }
    ensures { (test_of result ≡ tested (words_in_place size m.now) (words_due size m.now))
        × (words_in_place size m.now ≡ true → Dues size m.now dues.new)
        × (dues.new ≡ words_kept size m.now dues.old) }
{
    if !header_in_place(m) {
        return None;
    }
    let n = number(m[LIVE]);
    blocks_in_place(m, n, size, dues)
}

// Is it the stopped form: a stop's number first, all other words 0?
#[tactic(auto, unfolding(machine::specs::ReadMachine::stopped_words, walk::specs::Calls::is_stop))]
pub fn stopped_words(m: &[u32]) -> bool
    requires { MachineLong m.now }
    ensures { result ≡ stopped_words m.now }
{
    let k = m[0];
    FIRST_STOP <= k && k <= LAST_STOP && zero_from(m, 1, MACHINE_WORDS - 1)
}
