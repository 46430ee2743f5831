// The instructions that change a variable: `S` and `A`. `me` is the running routine's slot, `place` where it is.
ghost use Rattle.std.specs.Prelude.{ℕ, ◌+◌, ◌*◌, ◌<◌};
ghost use Rattle.listing.specs.Listing.{Listing, assign, schedule};
ghost use Rattle.walk.specs.State.{scheduled_on};
ghost use Rattle.table.specs.Decode.{pieces_at};
ghost use Rattle.engine_evaluate.specs.Evaluable.{Evaluable};
ghost use Rattle.engine_steps.specs.Asked.{MayChange, MayWrite};
ghost use Rattle.engine_steps.specs.Outcome.{Executes, Onwards, ChangesName};

use engine_evaluate::NO_VALUE;
use engine_steps::{Answer, Onward, Running, Stepped};
use machine::{FIRST_TRIGGERS, MAY_WAIT};
use words::{Delay, Later, Moment};

// "`S|n|e` writes expression e to name n", if nobody awaits it. Question 18.
pub fn assign_on(
    t: &[u32],
    m: &mut [u32],
    me: usize,
    place: u32,
    name: usize,
    cells: usize,
    pieces: usize,
) -> Onward
    requires { (MayChange m.old me place name) × (Evaluable t.now m.old me cells pieces) }
    ensures { (listing : Listing) (moment : ℕ) → Onwards listing moment (assign name (pieces_at t.now cells pieces))
        m.old m.new me result }
{
    let binding = engine_variables::owner(m, me, name);
    let block = binding.block;
    let index = binding.index;
    if engine_blocks::word_at(m, block, FIRST_TRIGGERS + index) != 0 {
        return Onward::Unmade;
    }
    let value = engine_evaluate::evaluate(t, m, me, cells, pieces);
    if NO_VALUE <= value {
        return Onward::StopsWith(18);
    }
    engine_variable_changes::assign(m, block, index, value as u32);
    let next = place + 1;
    engine_row_changes::set_place(m, me, next);
    Onward::To(next)
}

// The same if somebody may await it: the sleepers that it wakes are put into the ready list.
pub fn assign_step(
    t: &[u32],
    m: &mut [u32],
    running: Running,
    name: usize,
    cells: usize,
    pieces: usize,
) -> Stepped
    requires { (MayWrite m.old running name) × (Evaluable t.now m.old running.me cells pieces) }
    ensures { (listing : Listing) (moment : ℕ) → Executes listing moment (assign name (pieces_at t.now cells pieces))
        m.old m.new running result }
{
    let me = running.me;
    let value = engine_evaluate::evaluate(t, m, me, cells, pieces);
    if NO_VALUE <= value {
        return Stepped {
            answer: Answer::Stops(18),
            running,
        };
    }
    let binding = engine_variables::owner(m, me, name);
    let block = binding.block;
    let index = binding.index;
    let low = engine_row::low(m, me);
    let q = running.ready;
    let ready = engine_wake::wake(m, q, block, index, low);
    let next = engine_row::place(m, me) + 1;
    engine_variable_changes::assign(m, block, index, value as u32);
    engine_row_changes::set_place(m, me, next);
    Stepped {
        answer: Answer::Goes,
        running: Running {
            ready,
            live: running.live,
            woken: running.woken,
            me,
        },
    }
}

// The waiting write put on the name's variable, and the next instruction. Word 7 of the variable's block is 1 from then on: the next
// moment due is looked for in just those blocks where it is.
fn schedule_at(m: &mut [u32], me: usize, place: u32, name: usize, moment: Moment, value: u32)
    requires { (MayChange m.old me place name) × (0 < moment.0) }
    ensures { ChangesName m.old m.new me name (λ x. scheduled_on x moment.0 value) }
{
    let binding = engine_variables::owner(m, me, name);
    let block = binding.block;
    let index = binding.index;
    engine_variable_changes::schedule(m, block, index, moment, value);
    engine_blocks::put_word(m, block, MAY_WAIT, 1);
    engine_row_changes::set_place(m, me, place + 1);
}

// "`A|n|d|e` puts a waiting write of e on n, d milliseconds from now". Questions 18, of the delay and of the value,
// 16 and 17.
pub fn schedule_on(
    t: &[u32],
    m: &mut [u32],
    present: Moment,
    me: usize,
    place: u32,
    name: usize,
    cells: usize,
    first: usize,
    second: usize,
) -> Onward
    requires { (MayChange m.old me place name) × (Evaluable t.now m.old me cells first)
        × (Evaluable t.now m.old me (cells + 2 * first) second) }
    ensures { (listing : Listing) → Onwards listing present.0
        (schedule name (pieces_at t.now cells first) (pieces_at t.now (cells + 2 * first) second))
        m.old m.new me result }
{
    let delay = engine_evaluate::evaluate(t, m, me, cells, first);
    if NO_VALUE <= delay {
        return Onward::StopsWith(18);
    }
    let value = engine_evaluate::evaluate(t, m, me, cells + 2 * first, second);
    if NO_VALUE <= value {
        return Onward::StopsWith(18);
    }
    if !words::is_positive(delay as u32) {
        return Onward::StopsWith(16);
    }
    match words::later_moment(present, Delay(delay as u32)) {
        Later::At(moment) => {
            schedule_at(m, me, place, name, moment, value as u32);
            let next = place + 1;
            Onward::To(next)
        }
        Later::TooLate => Onward::StopsWith(17),
    }
}
