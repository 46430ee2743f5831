// The machine's words brought to the form that they have between calls.
ghost use Rattle.std.specs.Prelude.{◌≡◌, ◌≤◌, ◌/◌, ◌%◌};
ghost use Rattle.machine.specs.Words.{HasMachine};
ghost use Rattle.machine.specs.Due.{due_at};
ghost use Rattle.engine_rows.specs.Order.{walking_order};
ghost use Rattle.engine_rows.specs.Beginning.{next_due_of_rows};
ghost use Rattle.engine_blocks.specs.Blocks.{rows_of, environment_of};
ghost use Rattle.engine_clean.specs.Clean.{Clean};
ghost use Rattle.engine_finish.specs.Ended.{stored, Ended};

use crate::places::{clear_header, set_places};
use crate::working::clear_working;
use engine_order::order_slots;
use machine::{ENVIRONMENT_VARIABLES, LIVE, PRESENT};
use machine_words::due::sooner_of_variables;
use words::Moment;

// 2 to the 32: a moment's low word counts to here.
const SIZE: u64 = 4294967296;

// The present moment and the number of live routines.
fn store_header(m: &mut [u32], present: Moment, count: u32)
    requires { HasMachine m.old }
    ensures { m.new ≡ stored m.old (present.0 % 4294967296) (present.0 / 4294967296) count }
{
    m[PRESENT] = (present.0 % SIZE) as u32;
    m[2] = (present.0 / SIZE) as u32;
    m[LIVE] = count;
}

// At the present moment: header, order list and places written, working words cleared. Gives the next moment due (0: none), over the `size` environment
// variables and the slots, which the pass that makes the order list finds: it looks at those blocks in which a waiting write may stand.
pub fn finish(m: &mut [u32], present: Moment, size: usize) -> u64
    requires { HasMachine m.old × (size ≤ 16) × (Clean size m.old) }
    ensures { (Ended present.0 (walking_order (rows_of m.old)) m.old m.new)
        × (due_at result ≡ next_due_of_rows (rows_of m.old) (environment_of size m.old)) }
{
    clear_header(m);
    let outer = sooner_of_variables(m, ENVIRONMENT_VARIABLES, size, 0);
    let ordered = order_slots(m, outer);
    let count = ordered.count;
    set_places(m, count);
    clear_working(m);
    store_header(m, present, count as u32);
    ordered.due
}
