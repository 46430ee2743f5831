// Question 7: is the machine memory the stopped form or one state of the walk on this table?
// The tree is scanned once, record by record in walking order, against the child fields of the table.
#![tactic(auto)]

ghost use Rattle.std.specs.Prelude.{◌≡◌, length, true};
ghost use Rattle.table.specs.Areas.{HasTable, TableLong};
ghost use Rattle.table.specs.Decode.{table_listing};
ghost use Rattle.table.specs.Question6.{is_table};
ghost use Rattle.walk.specs.Instant.{environment_size};
ghost use Rattle.machine.specs.Words.{running_words, HasMachine, MachineLong};
ghost use Rattle.machine.specs.Due.{words_due};
ghost use Rattle.machine_words.specs.Tests.{test_of, tested, Dues};
ghost use Rattle.machine_check_slots.specs.Kept.{words_kept};
ghost use Rattle.walk.specs.Calls.{first_words};
ghost use Rattle.machine_check.specs.Answer.{Answered};

use machine::MACHINE_WORDS;
use machine_check_records::{stopped_words, words_in_place};
use machine_check_tree::scan::tree_passes;
use table::TABLE_WORDS;
use table_read::environment_size;

// The stop's number, or the next moment due (0: none).
#[derive(Clone, Copy, Debug, PartialEq, Eq)]
pub enum MachineCheck {
    NotAState,
    Stopped(u32),
    Running(u64),
}

// Do the words stand for a state of the walk on the table's listing? With the next moment due, and the soonest of each block.
pub fn running_words(t: &[u32], m: &[u32], dues: &mut [u64; 65]) -> Option<u64>
    requires { TableLong t.now × MachineLong m.now × (is_table t.now ≡ true) }
    ensures { (test_of result ≡ tested (running_words (table_listing t.now) m.now)
        (words_due (environment_size (table_listing t.now)) m.now))
        × (running_words (table_listing t.now) m.now ≡ true
        → Dues (environment_size (table_listing t.now)) m.now dues.new)
        × (dues.new ≡ words_kept (environment_size (table_listing t.now)) m.now dues.old) }
{
    let size = environment_size(t);
    let due = words_in_place(m, size, dues)?;
    if !tree_passes(t, m) {
        return None;
    }
    Some(due)
}

// Question 7 on the 12,288 words of each memory.
pub fn machine_answer(t: &[u32], m: &[u32], dues: &mut [u64; 65]) -> MachineCheck
    requires { TableLong t.now × MachineLong m.now × (is_table t.now ≡ true) }
    ensures { Answered (table_listing t.now) m.now dues.old dues.new result }
{
    if stopped_words(m) {
        let k = m[0];
        return MachineCheck::Stopped(k);
    }
    match running_words(t, m, dues) {
        None => MachineCheck::NotAState,
        Some(due) => MachineCheck::Running(due),
    }
}

// Question 7 on memories of at least 12,288 words; the table has passed question 6. Of a state, the soonest moment due of each block is kept.
pub fn check_machine(t: &[u32], m: &[u32], dues: &mut [u64; 65]) -> MachineCheck
    requires { HasTable t.now × HasMachine m.now × (is_table (first_words t.now) ≡ true) }
    ensures { Answered (table_listing (first_words t.now)) (first_words m.now) dues.old dues.new result }
{
    machine_answer(&t[0..TABLE_WORDS], &m[0..MACHINE_WORDS], dues)
}
