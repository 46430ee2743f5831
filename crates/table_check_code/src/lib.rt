// Question 6 of a routine's instructions: one pass over their entries, with a running address of the cells.
// `t` is a table's 12,288 words, `names` and `size` are the numbers of the routine's names and instructions.
// A function named `.._past` gives the address behind the cells that it looks at, or none if the answer is no.
#![tactic(auto)]

ghost use Rattle.std.specs.Prelude.{◌≡◌, ◌+◌, ◌*◌, ◌≤◌};
ghost use Rattle.table.specs.Areas.{TableLong};
ghost use Rattle.table.specs.Decode.{word};
ghost use Rattle.table_check_cells.specs.Pass.{entry_past, code_past};

use table::{
    ASSIGN, BRANCH, CELLS_AT, END, ENTRY_WORDS, FIRST_COUNT, FORK, JUMP, KIND, OPERAND, SCHEDULE,
    SECOND_COUNT, WAIT,
};
use table_check_instructions::{
    Line, expression_past, fork_past, plain_past, schedule_past, wait_past,
};

// The instruction whose entry stands at `e`.
#[tactic(auto, using(crate::proofs::Entries::by_kind))]
fn entry_past(t: &[u32], names: u32, size: u32, e: usize, cells: usize) -> Option<usize>
    requires { TableLong t.now × (e + 5 ≤ 2888) × (cells ≤ 11080) × (word t.now 2 ≤ 64) }
    ensures { result ≡ entry_past t.now names size e cells }
{
    let at = t[e + CELLS_AT] as usize;
    if at != cells {
        return None;
    }
    let line = Line {
        operand: t[e + OPERAND],
        cells,
        first: t[e + FIRST_COUNT],
        second: t[e + SECOND_COUNT],
    };
    match t[e + KIND] {
        ASSIGN => expression_past(t, names, names, line),
        SCHEDULE => schedule_past(t, names, line),
        BRANCH => expression_past(t, names, size, line),
        JUMP => plain_past(size, line),
        WAIT => wait_past(t, names, line),
        FORK => fork_past(t, names, line),
        END => plain_past(1, line),
        _ => None,
    }
}

// The `n` instructions whose entries stand from `e` on, their cells from `cells` on.
pub fn code_past(
    t: &[u32],
    names: u32,
    size: u32,
    e: usize,
    cells: usize,
    n: usize,
) -> Option<usize>
    requires { TableLong t.now × (e + 5 * n ≤ 2888) × (cells ≤ 11080) × (word t.now 2 ≤ 64) }
    ensures { result ≡ code_past t.now names size e cells n }
{
    let mut next = cells;
    for i in 0..n {
        next = entry_past(t, names, size, e + ENTRY_WORDS * i, next)?;
    }
    Some(next)
}
