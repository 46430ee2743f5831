// "Outputs written in the instant are put in the two lent lists (number, final value), rising by number; places after them stay."
ghost use Rattle.std.specs.Prelude.{◌+◌, ◌≤◌, ◌<◌, length, drop};
ghost use Rattle.machine.specs.Words.{HasMachine};
ghost use Rattle.walk.specs.Instant.{written_from};
ghost use Rattle.engine_blocks.specs.Blocks.{environment_of};
ghost use Rattle.engine_outputs.specs.Outputs.{ListedOne, Listed};

use machine::ENVIRONMENT;

// Environment variable i, if it was written, at place `count` of the lists; how many are listed then.
fn list_output(m: &[u32], i: usize, numbers: &mut [u32], values: &mut [u32], count: usize) -> usize
    requires { HasMachine m.now × (i < 16) × (count < 16) × (16 ≤ length numbers.old) × (16 ≤ length values.old) }
    ensures { ListedOne m.now i count numbers.old values.old numbers.new values.new result }
{
    if engine_variables::written(m, ENVIRONMENT, i) {
        numbers[count] = i as u32;
        values[count] = engine_variables::value(m, ENVIRONMENT, i);
        return count + 1;
    }
    count
}

// The outputs: the environment's variables after the inputs, in the two lists that C lends. Gives the number of those listed.
pub fn list_outputs(
    m: &[u32],
    inputs: usize,
    outputs: usize,
    numbers: &mut [u32],
    values: &mut [u32],
) -> usize
    requires { HasMachine m.now × (inputs + outputs ≤ 16) × (16 ≤ length numbers.old) × (16 ≤ length values.old) }
    ensures { Listed (written_from inputs (drop inputs (environment_of (inputs + outputs) m.now)))
        numbers.old values.old numbers.new values.new result }
{
    let mut count: usize = 0;
    for i in inputs..inputs + outputs {
        count = list_output(m, i, numbers, values, count);
    }
    count
}
