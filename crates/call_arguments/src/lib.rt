// The tests of a call's arguments, each of one question: the lengths, a due write before t, the inputs' numbers, the allowance;
// and the refusals, by the question that refuses.
#![tactic(auto)]

pub mod questions;

ghost use Rattle.std.specs.Prelude.{◌≡◌};
ghost use Rattle.walk.specs.Calls.{due_before, allowed};
ghost use Rattle.machine.specs.Due.{due_at};
ghost use Rattle.call_arguments.specs.Asked.{long_enough, numbers_rise};

use machine::MACHINE_WORDS;
pub use questions::Refusal;
use table::TABLE_WORDS;
use words::{Moment, number};

const OUTPUT_PLACES: usize = 16;

// 1 "Are the lent memories long enough?", of their lengths.
pub fn long_enough(table: usize, machine: usize, numbers: usize, values: usize) -> bool
    ensures { result ≡ long_enough table machine numbers values }
{
    if table < TABLE_WORDS {
        return false;
    }
    if machine < MACHINE_WORDS {
        return false;
    }
    if numbers < OUTPUT_PLACES {
        return false;
    }
    values >= OUTPUT_PLACES
}

// 10 "Is nothing due before t?", t being the call's moment: whether something is, by the next moment due (0: none).
pub fn due_before(due: u64, moment: Moment) -> bool
    ensures { result ≡ due_before (due_at due) moment.0 }
{
    if due == 0 {
        return false;
    }
    due < moment.0
}

// 11 "Are the input numbers below i and strictly rising?"
pub fn numbers_rise(numbers: &[u32], inputs: usize) -> bool
    ensures { result ≡ numbers_rise inputs 0 numbers.now }
{
    let mut least: usize = 0;
    for input in numbers {
        let n = number(*input);
        if n < least {
            return false;
        }
        if n >= inputs {
            return false;
        }
        least = n + 1;
    }
    true
}

// 12 "Is the allowance 1 to 1,000,000?"
pub fn allowance_fits(allowance: u32) -> bool
    ensures { result ≡ allowed allowance }
{
    if allowance < 1 {
        return false;
    }
    allowance <= 1000000
}
