// The instruction `F`, on the machine's words. `t` is the table, `m` the machine's memory.
#![tactic(auto)]

ghost use Rattle.std.specs.Prelude.{ℕ};
ghost use Rattle.listing.specs.Listing.{fork};
ghost use Rattle.table.specs.Decode.{calls_at, table_listing};
ghost use Rattle.engine_steps.specs.Outcome.{Executes};
ghost use Rattle.engine_fork.specs.Asked.{MayForkStep};

use engine_steps::{Answer, Running, Stepped};

// "`F|c|c..` forks 1 to 8 children", unless question 14 or 15 stops the machine. The first child runs at once.
pub fn fork_step(t: &[u32], m: &mut [u32], running: Running, cells: usize, n: usize) -> Stepped
    requires { MayForkStep t.now m.old running cells n }
    ensures { (moment : ℕ) → Executes (table_listing t.now) moment (fork (calls_at t.now cells n))
        m.old m.new running result }
{
    let me = running.me;
    let woken = running.woken;
    let count = n as u32;
    let live = running.live + count;
    if live > 64 {
        return Stepped {
            answer: Answer::Stops(14),
            running,
        };
    }
    if engine_row::level(m, me) > 9 {
        return Stepped {
            answer: Answer::Stops(15),
            running,
        };
    }
    engine_row_changes::set_children(m, me, count);
    let new = engine_children::fork_children(t, m, me, cells, n);
    let places = new.places;
    let made = new.count;
    let q = running.ready;
    let ready = engine_ready::put_before(q, places, made);
    engine_steps::next_ready(
        m,
        Running {
            ready,
            live,
            woken,
            me,
        },
    )
}
