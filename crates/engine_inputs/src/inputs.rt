// Rule 1 of document 01: "Then the call's inputs are written." Document 02: "An input now drops any waiting write on its variable".
ghost use Rattle.std.specs.Prelude.{◌≡◌, ℕ, length};
ghost use Rattle.machine.specs.Words.{HasMachine};
ghost use Rattle.walk.specs.Calls.{inputs_of};
ghost use Rattle.engine_blocks.specs.Blocks.{rows_of};
ghost use Rattle.engine_ready.specs.Slots.{slots_of};
ghost use Rattle.engine_ready.specs.Ordered.{Ordered};
ghost use Rattle.engine_due.specs.Beginnings.{NumbersBelow, InputsWritten};
ghost use Rattle.engine_due.specs.Reaching.{Reaches};

use engine_ready::ReadyList;
use machine::ENVIRONMENT;

// Each input by its number and value, from the two lists that C lends: it drops the waiting write on its variable, and passes along the trigger list of it.
pub fn write_inputs(m: &mut [u32], ready: ReadyList, numbers: &[u32], values: &[u32]) -> ReadyList
    requires { HasMachine m.old × (length numbers.now ≡ length values.now) × NumbersBelow 16 numbers.now × (Ordered (rows_of m.old) (slots_of ready)) }
    ensures { (Ordered (rows_of m.new) (slots_of result))
        × ((n : ℕ) → NumbersBelow n numbers.now
        → InputsWritten n (inputs_of numbers.now values.now) m.old m.new
        × Reaches n m.old m.new (slots_of ready) (slots_of result)) }
{
    let mut woken = ready;
    for (number, value) in numbers.iter().zip(values) {
        let index = *number as usize;
        engine_make_due::overwrite(m, ENVIRONMENT, index, *value);
        woken = engine_wake_all::wake_all(m, woken, ENVIRONMENT, index);
    }
    woken
}
