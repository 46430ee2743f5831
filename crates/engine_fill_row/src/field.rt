// The child field that made a routine, found in the table.
ghost use Rattle.std.specs.Prelude.{◌≡◌, true, ◌<◌};
ghost use Rattle.machine.specs.Words.{HasMachine};
ghost use Rattle.walk.specs.Walk.{instruction_at};
ghost use Rattle.table.specs.Decode.{word, size_of, table_listing};
ghost use Rattle.table.specs.Question6.{is_table};
ghost use Rattle.engine_rows.specs.Records.{is_wait};
ghost use Rattle.engine_blocks.specs.Blocks.{nonzero, rows_of};
ghost use Rattle.engine_fill_row.specs.Filling.{MayFillChild};
ghost use Rattle.engine_fill_row.specs.Field.{FieldIs};

use table::WAIT;
use table_read::{fetch, head_after, head_at};

// A child field: the address of its head, its routine, and how many child fields its `F` has.
#[derive(Clone, Copy)]
pub struct Field {
    pub head: usize,
    pub callee: usize,
    pub count: usize,
}

// 1 if instruction `place` of routine r is a `W`, else 0.
pub fn wait_mark(t: &[u32], r: usize, place: usize) -> u32
    requires { (is_table t.now ≡ true) × (r < word t.now 2) × (place < size_of t.now r) }
    ensures { nonzero result ≡ is_wait (instruction_at (table_listing t.now) r place) }
{
    let e = fetch(t, r, place);
    u32::from(e.kind == WAIT)
}

// The field of the parent's `F` that made the routine in slot s.
pub fn field_of(t: &[u32], m: &[u32], p: usize, s: usize) -> Field
    requires { (is_table t.now ≡ true) × HasMachine m.now × MayFillChild t.now (rows_of m.now) p s }
    ensures { FieldIs t.now (rows_of m.now) p s result }
{
    let r = engine_row::routine(m, p) as usize;
    let at = engine_row::place(m, p) as usize;
    let e = fetch(t, r, at);
    let cells = e.cells;
    let count = e.first;
    let i = engine_row::child(m, s) as usize;
    let head = head_after(t, cells, i);
    let field = head_at(t, head);
    let callee = field.callee;
    Field {
        head,
        callee,
        count,
    }
}
