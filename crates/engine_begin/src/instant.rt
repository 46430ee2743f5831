// The beginning of an instant. Rule 1 of document 01: "Every waiting write due at t is made, and is gone. Then the call's inputs
// are written": after the trigger lists are made, so that each of these writes reaches just the routines that wait on its variable.
ghost use Rattle.engine_begin.specs.Begun.{MayBegin, Begun};

use engine_due::make_due_at;
use engine_fill::fill_rows;
use engine_inputs::write_inputs;
use engine_queue::queue_waiting;
use engine_ready::ReadyList;
use engine_triggers::list_sleepers;
use table_read::environment_size;
use words::Moment;

// The blocks where a waiting write may stand noted, rows filled in, sleepers listed, due writes and inputs made; the routines that are ready. Given the soonest moment due of each
// block.
pub fn begin_instant(
    t: &[u32],
    m: &mut [u32],
    present: Moment,
    dues: &[u64; 65],
    numbers: &[u32],
    values: &[u32],
) -> ReadyList
    requires { MayBegin t.now m.old present.0 dues.now numbers.now values.now }
    ensures { Begun t.now m.old m.new present.0 numbers.now values.now result }
{
    let n = environment_size(t);
    queue_waiting(m, dues);
    fill_rows(t, m);
    list_sleepers(m, t);
    let due = make_due_at(m, engine_ready::empty(), n, present, dues);
    write_inputs(m, due, numbers, values)
}
