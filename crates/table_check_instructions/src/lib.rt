// Question 6 of one instruction, by its kind: its operand, its counts and its cells.
// `t` is a table's 12,288 words, `names` is the number of the routine's names.
// A function named `.._past` gives the address behind the cells that it looks at, or none if the answer is no.
#![tactic(auto)]

pub mod line;

ghost use Rattle.std.specs.Prelude.{◌≡◌, true, cond, ◌&&◌, ◌+◌, ◌*◌, ◌≤◌, eqb, ltb, leb};
ghost use Rattle.table.specs.Areas.{TableLong};
ghost use Rattle.table.specs.Decode.{word};
ghost use Rattle.table_check_cells.specs.Pass.{expression_test, names_test, cells_past, calls_past};

pub use line::Line;
use table::{CELL_END, CELL_WORDS};
use table_check_cells::{calls_past, expression_passes, names_pass};

// `S` and `U`: an operand below `limit`, and one expression.
#[tactic(auto, unfolding(table_check_cells::specs::Pass::cells_past))]
pub fn expression_past(t: &[u32], names: u32, limit: u32, line: Line) -> Option<usize>
    requires { TableLong t.now }
    ensures { result ≡ cells_past line.cells (ltb line.operand limit && eqb line.second 0) (2 * line.first) (expression_test t.now names 0 line.cells line.first) }
{
    let n = line.first as usize;
    let stop = line.cells + CELL_WORDS * n;
    if line.operand < limit
        && line.second == 0
        && stop <= CELL_END
        && expression_passes(t, names, line.cells, n)
    {
        Some(stop)
    } else {
        None
    }
}

// `A`: a name, and two expressions.
#[tactic(auto, unfolding(table_check_cells::specs::Pass::cells_past))]
pub fn schedule_past(t: &[u32], names: u32, line: Line) -> Option<usize>
    requires { TableLong t.now }
    ensures { result ≡ cells_past line.cells (ltb line.operand names) (2 * line.first + 2 * line.second) (expression_test t.now names 0 line.cells line.first && expression_test t.now names 0 (line.cells + 2 * line.first) line.second) }
{
    let n = line.first as usize;
    let k = line.second as usize;
    let middle = line.cells + CELL_WORDS * n;
    let stop = middle + CELL_WORDS * k;
    if line.operand < names
        && stop <= CELL_END
        && expression_passes(t, names, line.cells, n)
        && expression_passes(t, names, middle, k)
    {
        Some(stop)
    } else {
        None
    }
}

// `G` and `E`: an operand below `limit`, and no cells.
#[tactic(auto, unfolding(table_check_cells::specs::Pass::cells_past))]
pub fn plain_past(limit: u32, line: Line) -> Option<usize>
    ensures { result ≡ cells_past line.cells (ltb line.operand limit && (eqb line.first 0 && eqb line.second 0)) 0 true }
{
    if limit <= line.operand || line.first != 0 || line.second != 0 {
        return None;
    }
    Some(line.cells)
}

// `W` and `F` have no operand, no second count, and 1 to `most` names or children.
fn counts_pass(line: Line, most: u32) -> bool
    ensures { result ≡ ((eqb line.operand 0 && eqb line.second 0) && (leb 1 line.first && leb line.first most)) }
{
    line.operand == 0 && line.second == 0 && 1 <= line.first && line.first <= most
}

// `W`: 1 to 4 names.
#[tactic(auto, unfolding(table_check_cells::specs::Pass::cells_past))]
pub fn wait_past(t: &[u32], names: u32, line: Line) -> Option<usize>
    requires { TableLong t.now }
    ensures { result ≡ cells_past line.cells ((eqb line.operand 0 && eqb line.second 0) && (leb 1 line.first && leb line.first 4)) (2 * line.first) (names_test t.now names line.cells line.first) }
{
    let n = line.first as usize;
    let stop = line.cells + CELL_WORDS * n;
    if counts_pass(line, 4) && stop <= CELL_END && names_pass(t, names, line.cells, n) {
        Some(stop)
    } else {
        None
    }
}

// `F`: 1 to 8 children.
pub fn fork_past(t: &[u32], names: u32, line: Line) -> Option<usize>
    requires { TableLong t.now × (word t.now 2 ≤ 64) }
    ensures { result ≡ cond ((eqb line.operand 0 && eqb line.second 0) && (leb 1 line.first && leb line.first 8)) (calls_past t.now names line.cells line.first) None }
{
    if counts_pass(line, 8) {
        calls_past(t, names, line.cells, line.first)
    } else {
        None
    }
}
