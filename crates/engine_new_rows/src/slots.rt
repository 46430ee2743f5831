// The slot that a new routine takes: "room freed by an end serves the next fork".
ghost use Rattle.std.specs.Prelude.{◌≡◌, ◌<◌, ℕ, true, MatchOption};
ghost use Rattle.machine.specs.Words.{HasMachine};
ghost use Rattle.engine_rows.specs.Engine.{free_slot};
ghost use Rattle.engine_blocks.specs.Blocks.{rows_of};

use engine_row::used;
use machine::SLOTS;

// The lowest free slot, if there is one. A fork's first child so comes lowest: along a trigger list, which falls by slot, priorities fall too,
// which is the cheapest order in which to put slots into the ready list.
pub fn free_slot(m: &[u32]) -> Option<usize>
    requires { HasMachine m.now }
    ensures { MatchOption result ((s : ℕ) → s < 64 → (rows_of m.now s).used ≡ true) (λ s. s ≡ free_slot (rows_of m.now) 64) }
{
    for s in 0..SLOTS {
        if !used(m, s) {
            return Some(s);
        }
    }
    None
}
