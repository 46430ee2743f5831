// One routine's working words.
ghost use Rattle.std.specs.Prelude.{◌≡◌, true};
ghost use Rattle.machine.specs.Words.{HasMachine};
ghost use Rattle.table.specs.Question6.{is_table};
ghost use Rattle.engine_blocks.specs.Blocks.{rows_of};
ghost use Rattle.engine_fill_row.specs.Filling.{MayFillChild};
ghost use Rattle.engine_fill_row.specs.Row.{MayFillRow, RowFilled, child_working, ChildFilled};

use crate::field::{field_of, wait_mark};
use engine_new_names::bind_names;
use engine_new_rows::{Parent, parent_of, put_working};
use table::CELL_WORDS;
use table_read::opening_of;

// The working words of the routine in slot s, which child field number i of the routine in slot p made; its head stands at `head`.
fn fill_row(
    t: &[u32],
    m: &mut [u32],
    p: usize,
    s: usize,
    head: usize,
    callee: usize,
    parent: Parent,
)
    requires { MayFillRow t.now m.old p s head callee parent }
    ensures { RowFilled m.old s (child_working t.now m.old p s head callee parent) m.new }
{
    let opening = opening_of(t, callee);
    let count = opening.arguments;
    let bits = opening.bits;
    let locals = opening.locals;
    let place = engine_row::place(m, s) as usize;
    let asleep = wait_mark(t, callee, place);
    let i = engine_row::child(m, s);
    put_working(m, s, parent, i, asleep, callee as u32);
    bind_names(t, m, p, s, head + CELL_WORDS, count, bits, locals);
}

// A child's row, and one live child more in its parent's.
pub fn fill_child(t: &[u32], m: &mut [u32], p: usize, s: usize)
    requires { (is_table t.now ≡ true) × HasMachine m.old × MayFillChild t.now (rows_of m.old) p s }
    ensures { ChildFilled t.now m.old p s m.new }
{
    let field = field_of(t, m, p, s);
    let parent = parent_of(m, p, field.count as u32);
    let count = engine_row::children(m, p);
    engine_row_changes::set_children(m, p, count + 1);
    fill_row(t, m, p, s, field.head, field.callee, parent);
}
