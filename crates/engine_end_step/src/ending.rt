// The instruction `E`.
ghost use Rattle.std.specs.Prelude.{◌≡◌, ℕ, suc, ◌-◌, ◌<◌};
ghost use Rattle.listing.specs.Listing.{Listing, end};
ghost use Rattle.engine_blocks.specs.Blocks.{rows_of};
ghost use Rattle.engine_steps.specs.Asked.{MayPop, MayEnd};
ghost use Rattle.engine_steps.specs.Outcome.{Executes, Joins};

use engine_steps::{Answer, Running, Stepped, next_ready};

// One less, and 0 for 0.
fn one_less(x: u32) -> u32
    ensures { result ≡ x - 1 }
{
    if x == 0 {
        return 0;
    }
    x - 1
}

// A child of the routine in slot `parent` has ended. "Once none is left the parent goes on in the same instant."
fn join_step(m: &mut [u32], running: Running, parent: usize) -> Stepped
    requires { (MayPop m.old running) × (parent < 64) × (suc (rows_of m.old parent).place < 4294967296) }
    ensures { Joins m.old m.new running parent result }
{
    let children = engine_row::children(m, parent);
    if children == 1 {
        let next = engine_row::place(m, parent) + 1;
        engine_row_changes::set_children(m, parent, 0);
        engine_row_changes::set_place(m, parent, next);
        let mut resumed = running;
        resumed.me = parent;
        return Stepped {
            answer: Answer::Goes,
            running: resumed,
        };
    }
    engine_row_changes::set_children(m, parent, one_less(children));
    next_ready(m, running)
}

// "At `E` the routine's own variables vanish with their waiting writes." Main's end ends the instant.
pub fn end_step(m: &mut [u32], running: Running) -> Stepped
    requires { MayEnd m.old running }
    ensures { (listing : Listing) (moment : ℕ) → Executes listing moment end m.old m.new running result }
{
    let me = running.me;
    let live = one_less(running.live);
    let level = engine_row::level(m, me);
    let parent = engine_row::parent(m, me);
    let mut others = running;
    others.live = live;
    engine_row_changes::free(m, me);
    if level == 0 {
        return Stepped {
            answer: Answer::Ends,
            running: others,
        };
    }
    join_step(m, others, parent)
}
