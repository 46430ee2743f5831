// The soonest moment due. A moment due is at least 1, so 0 stands for none: a number that can mean none is bare, and no `Moment`.

ghost use Rattle.std.specs.Prelude.{◌≡◌, ◌+◌, ◌*◌, ◌≤◌, length};
ghost use Rattle.walk.specs.Instant.{earlier, due_of_variables};
ghost use Rattle.machine.specs.Words.{variables_in};
ghost use Rattle.machine.specs.Due.{due_at};

use crate::moment_at;
use machine::VARIABLE_WORDS;

// The sooner of two moments due.
#[tactic(auto, using(crate::proofs::DueLaws::first_none, crate::proofs::DueLaws::second_none))]
pub fn sooner(a: u64, b: u64) -> u64
    ensures { due_at result ≡ earlier (due_at a) (due_at b) }
{
    if a == 0 {
        return b;
    }
    if b == 0 {
        return a;
    }
    a.min(b)
}

// The soonest of a moment and those of the k variables from `at` on.
pub fn sooner_of_variables(m: &[u32], at: usize, k: usize, due: u64) -> u64
    requires { (k ≤ 16) × (at + k * 6 ≤ length m.now) }
    ensures { due_at result ≡ earlier (due_at due) (due_of_variables (variables_in m.now at k)) }
{
    let mut found = due;
    for i in 0..k {
        let here = moment_at(m, at + i * VARIABLE_WORDS + 2);
        found = sooner(found, here);
    }
    found
}
