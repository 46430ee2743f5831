// Pairs of a number and a value, as the file has them: a call's inputs, and the outputs that an answer lists.
ghost use Rattle.test_stored_answers.specs.Pairs.{fitting, PairsPut};

use test_cases::frame::{past, word_at};

// So many pairs put into two lists, which a call of the library takes apart from one another, or as many as both have room for.
pub fn read_pairs(s: &[u8], from: usize, count: usize, numbers: &mut [u32], values: &mut [u32])
    ensures { PairsPut s.now from (fitting count numbers.old values.old) numbers.old values.old
        numbers.new values.new }
{
    let mut at = from;
    for k in 0..count.min(numbers.len().min(values.len())) {
        numbers[k] = word_at(s, at);
        values[k] = word_at(s, past(s, at, 4));
        at = past(s, at, 8);
    }
}
