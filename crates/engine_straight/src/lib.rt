// The steps of the running routine that leave the ready list alone, made without carrying it. `t` is the table, `m` the
// machine's memory, `me` the running routine's slot.
#![tactic(auto)]

ghost use Rattle.std.specs.Prelude.{◌≡◌};
ghost use Rattle.walk.specs.Walk.{instruction_at};
ghost use Rattle.table.specs.Decode.{table_listing};
ghost use Rattle.table.specs.Entry.{Fetched};
ghost use Rattle.engine_blocks.specs.Blocks.{rows_of};
ghost use Rattle.engine_steps.specs.Outcome.{Onwards};
ghost use Rattle.engine_straight.specs.Straight.{MayStepAlone, MayGoAlone, GoesStraight};

use engine_steps::Onward;
use table::{ASSIGN, BRANCH, ENTRY_WORDS, JUMP, SCHEDULE};
use table_read::Entry;
use words::{Moment, number};

// So many steps are left, and the next needs the ready list, or none is left; or the machine stops under a number.
#[derive(Clone, Copy)]
pub enum Straight {
    At(u32),
    StopsWith(u32),
}

// The instruction whose entry was read, executed, unless it needs the ready list. `place` is where the running routine is.
fn straight_step(
    t: &[u32],
    m: &mut [u32],
    present: Moment,
    me: usize,
    place: u32,
    entry: Entry,
) -> Onward
    requires { (MayStepAlone t.now m.old me) × (place ≡ (rows_of m.old me).place)
        × (Fetched t.now (rows_of m.old me).routine (rows_of m.old me).place entry.kind entry.operand entry.cells entry.first entry.second) }
    ensures { Onwards (table_listing t.now) present.0
        (instruction_at (table_listing t.now) (rows_of m.old me).routine (rows_of m.old me).place)
        m.old m.new me result }
{
    let kind = entry.kind;
    let operand = entry.operand;
    let cells = entry.cells;
    let first = entry.first;
    let second = entry.second;
    match kind {
        ASSIGN => {
            return engine_write_steps::assign_on(t, m, me, place, operand, cells, first);
        }
        SCHEDULE => {
            return engine_write_steps::schedule_on(
                t, m, present, me, place, operand, cells, first, second,
            );
        }
        BRANCH => {
            return engine_steps::branch_on(t, m, me, place, cells, first, operand as u32);
        }
        JUMP => {
            return engine_steps::jump_on(m, me, operand as u32);
        }
        _ => {
            return Onward::Unmade;
        }
    }
}

// The running routine goes on, its code found once, until an instruction needs the ready list.
pub fn run_straight(
    t: &[u32],
    m: &mut [u32],
    present: Moment,
    me: usize,
    allowance: u32,
) -> Straight
    requires { MayGoAlone t.now m.old present.0 allowance me }
    ensures { GoesStraight t.now present.0 m.old allowance me m.new result }
{
    let code = table_read::code_at(t, number(engine_row::routine(m, me)));
    let mut place = engine_row::place(m, me);
    let mut left = allowance;
    while left > 0 {
        let entry = table_read::entry_at(t, code + ENTRY_WORDS * number(place));
        match straight_step(t, m, present, me, place, entry) {
            Onward::To(to) => {
                place = to;
                left -= 1;
            }
            Onward::StopsWith(k) => {
                return Straight::StopsWith(k);
            }
            Onward::Unmade => {
                return Straight::At(left);
            }
        }
    }
    Straight::At(left)
}
