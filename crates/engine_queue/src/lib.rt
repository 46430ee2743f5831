// Where waiting writes may stand, noted at the beginning of an instant: a variable's waiting write stands in its own record; word 7 of a block says
// whether one may stand among the block's variables, and the next moment due is looked for in just those blocks.
#![tactic(auto)]

ghost use Rattle.std.specs.Prelude.{◌≡◌, length};
ghost use Rattle.machine.specs.Words.{HasMachine};
ghost use Rattle.engine_queue.specs.Queue.{flag_of, Queued};

use machine::MAY_WAIT;

// The note of a block by its soonest moment due (0: none).
fn flag(due: u64) -> u32
    ensures { result ≡ flag_of due }
{
    u32::from(due != 0)
}

// Each block by its soonest moment due, as question 7's pass has kept it.
pub fn queue_waiting(m: &mut [u32], dues: &[u64; 65])
    requires { HasMachine m.old × (length dues.now ≡ 65) }
    ensures { Queued 65 dues.now m.old m.new }
{
    for (s, due) in dues.iter().enumerate() {
        engine_blocks::put_word(m, s, MAY_WAIT, flag(*due));
    }
}
