// Question 6 at the ends: the instruction that ends a routine, and what is behind the routines.
#![tactic(auto)]

ghost use Rattle.std.specs.Prelude.{◌≡◌, ◌+◌, ◌*◌, ◌-◌, ◌≤◌, length};
ghost use Rattle.listing.specs.Questions.{may_be_last};
ghost use Rattle.table.specs.Areas.{operands, TableLong};
ghost use Rattle.table.specs.Decode.{instruction_at_entry};
ghost use Rattle.table_check_ends.specs.Ends.{zeros_at, operand_count, tail_test};

use table::{
    ASSIGN, BRANCH, CELL_END, CELL_WORDS, CELLS, ENTRIES, ENTRY_WORDS, FORK, JUMP, KIND,
    ROUTINE_COUNT, ROUTINE_WORDS, ROUTINES, SCHEDULE, TABLE_WORDS, WAIT,
};
use words::all_zero;

// May the instruction whose entry stands at `e` be the last of its routine: `E` or `G`?
pub fn may_end(t: &[u32], e: usize) -> bool
    requires { e + 5 ≤ length t.now }
    ensures { result ≡ may_be_last (instruction_at_entry t.now e) }
{
    !matches!(t[e + KIND], ASSIGN | SCHEDULE | BRANCH | WAIT | FORK)
}

// Are the words from `from` to before `to` 0?
#[tactic(auto, using(crate::proofs::Ends::zeros_by_slice))]
fn zeros_pass(t: &[u32], from: usize, to: usize) -> bool
    requires { (from ≤ to) × (to ≤ length t.now) }
    ensures { result ≡ zeros_at t.now from (to - from) }
{
    all_zero(&t[from..to])
}

// The pieces of the instruction at `e` that stand in its entry.
#[tactic(auto, unfolding(table::specs::Decode::instruction_at_entry, table::specs::Decode::instruction_of, table::specs::Areas::operands))]
fn operands_at(t: &[u32], e: usize) -> usize
    requires { e + 5 ≤ length t.now }
    ensures { result ≡ operands (instruction_at_entry t.now e) }
{
    usize::from(matches!(t[e + KIND], ASSIGN | SCHEDULE | BRANCH | JUMP))
}

// Those of all `n` instructions.
fn operand_count(t: &[u32], n: usize) -> usize
    requires { (328 + 5 * n ≤ length t.now) × (n ≤ 512) }
    ensures { result ≡ operand_count t.now 328 n }
{
    let mut sum = 0;
    for i in 0..n {
        sum += operands_at(t, ENTRIES + ENTRY_WORDS * i);
    }
    sum
}

// Behind `n` routines, `first` instructions and their cells: words of 0, and at most 4,096 pieces.
#[tactic(auto, using(crate::proofs::Ends::operand_count_most), unfolding(crate::specs::Ends::tail_test))]
pub fn tail_passes(t: &[u32], n: usize, first: usize, cells: usize) -> bool
    requires { TableLong t.now × (n ≤ 64) × (first ≤ 512) × (cells ≤ 11080) }
    ensures { result ≡ tail_test t.now n first cells }
{
    zeros_pass(t, ROUTINE_COUNT + 1, ROUTINES)
        && zeros_pass(t, ROUTINES + ROUTINE_WORDS * n, ENTRIES)
        && zeros_pass(t, ENTRIES + ENTRY_WORDS * first, CELLS)
        && zeros_pass(t, cells, TABLE_WORDS)
        && cells + CELL_WORDS * operand_count(t, first) <= CELL_END
}
