// The pass over the live routines in walking order: a parent before its children. `above` has, for each
// level, the slot seen last one level up.
ghost use Rattle.std.specs.Prelude.{◌≡◌, true, ◌<◌, length, get_or};
ghost use Rattle.machine.specs.Words.{HasMachine};
ghost use Rattle.table.specs.Decode.{table_listing};
ghost use Rattle.table.specs.Question6.{is_table};
ghost use Rattle.engine_rows.specs.Records.{filled_rows};
ghost use Rattle.engine_blocks.specs.Blocks.{rows_of};
ghost use Rattle.engine_fill_row.specs.Filling.{MayFillAll, FillsRows, ports_of, order_of};
ghost use Rattle.engine_fill.specs.Pass.{MayFillSlot, SlotFilled};

use engine_fill_row::fill_child;
use engine_main_row::fill_main;
use machine::{LIVE, ORDER};
use words::byte_number;

// A word of the machine's header.
fn header(m: &[u32], at: usize) -> usize
    requires { at < length m.now }
    ensures { result ≡ get_or m.now at 0 }
{
    m[at] as usize
}

// One routine, by its level.
fn fill_slot(t: &[u32], m: &mut [u32], level: usize, p: usize, s: usize)
    requires { (is_table t.now ≡ true) × HasMachine m.old × MayFillSlot t.now (rows_of m.old) level p s }
    ensures { SlotFilled t.now m.old level p s m.new }
{
    if level == 0 {
        fill_main(t, m, s);
        return;
    }
    fill_child(t, m, p, s);
}

// All live routines.
pub fn fill_rows(t: &[u32], m: &mut [u32])
    requires { MayFillAll t.now m.old }
    ensures { FillsRows m.old (filled_rows (table_listing t.now) (rows_of m.old) (ports_of t.now m.old) (λ level. 64) (order_of m.old)) m.new }
{
    let n = header(m, LIVE);
    let mut above: [u8; 12] = [64; 12];
    for k in 0..n {
        let s = header(m, ORDER + k);
        let level = engine_row::level(m, s) as usize;
        let p = byte_number(above[level]);
        fill_slot(t, m, level, p, s);
        above[level + 1] = s as u8;
    }
}
