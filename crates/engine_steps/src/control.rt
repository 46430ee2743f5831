// The instructions that change no variable: `U`, `G` and `W`. `me` is the running routine's slot, `place` where it is.
ghost use Rattle.std.specs.Prelude.{ℕ, List};
ghost use Rattle.machine.specs.Words.{AtSlot};
ghost use Rattle.listing.specs.Listing.{Listing, jump, wait, branch};
ghost use Rattle.table.specs.Decode.{pieces_at};
ghost use Rattle.engine_evaluate.specs.Evaluable.{Evaluable};
ghost use Rattle.engine_steps.specs.Asked.{MayPop, MayGoOn};
ghost use Rattle.engine_steps.specs.Outcome.{Executes, Onwards};

use crate::running::{Onward, Running, Stepped, next_ready};
use engine_evaluate::NO_VALUE;

// "`G|k` goes to k."
pub fn jump_on(m: &mut [u32], me: usize, k: u32) -> Onward
    requires { AtSlot m.old me }
    ensures { (listing : Listing) (moment : ℕ) → Onwards listing moment (jump k) m.old m.new me result }
{
    engine_row_changes::set_place(m, me, k);
    Onward::To(k)
}

// "`U|e|k` goes to instruction k if e is 0." Question 18.
pub fn branch_on(
    t: &[u32],
    m: &mut [u32],
    me: usize,
    place: u32,
    cells: usize,
    pieces: usize,
    k: u32,
) -> Onward
    requires { (MayGoOn m.old me place) × (Evaluable t.now m.old me cells pieces) }
    ensures { (listing : Listing) (moment : ℕ) → Onwards listing moment (branch (pieces_at t.now cells pieces) k)
        m.old m.new me result }
{
    let condition = engine_evaluate::evaluate(t, m, me, cells, pieces);
    if NO_VALUE <= condition {
        return Onward::StopsWith(18);
    }
    if condition == 0 {
        return jump_on(m, me, k);
    }
    jump_on(m, me, place + 1)
}

// "A wait reached now sleeps, even if its name was written earlier in this instant."
pub fn wait_step(m: &mut [u32], running: Running) -> Stepped
    requires { MayPop m.old running }
    ensures { (listing : Listing) (moment : ℕ) (names : List ℕ) → Executes listing moment (wait names) m.old m.new running result }
{
    next_ready(m, running)
}
