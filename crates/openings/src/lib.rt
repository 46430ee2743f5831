// The openings of a session's valves, from the lists of its writes: definitions and laws, and the questions put to the lists.
// Document 02: "9 a moment that falls, 11 an output of 16 or more or listed twice in a moment."
#![tactic(auto)]

ghost use Rattle.std.specs.Prelude.{List, ◌≡◌, ℕ, length};
ghost use Rattle.openings.specs.Questions.{none_falls};
ghost use Rattle.openings.specs.Verdicts.{verdict};

const OUTPUTS: u32 = 16;

// An output's write: its moment in milliseconds, the output's number, the value as a word of 32 bits.
#[derive(Clone, Copy, Debug, PartialEq, Eq)]
pub struct Write {
    pub moment: u64,
    pub output: u32,
    pub value: u32,
}

// 9: does no moment fall?
pub fn none_falls(moments: &[u64]) -> bool
    ensures { result ≡ none_falls moments.now }
{
    moments.is_sorted()
}

// The order of lists that pass 9 and 11: that of their rows, or any.
#[derive(Clone, Copy, Debug, PartialEq, Eq)]
pub enum Order {
    InOrder,
    AnyOrder,
}

// 9 and 11 in one pass: does no moment fall, is every output below 16, and none listed twice in a moment? The order of lists that pass,
// None of others. `seen` has a bit for each output listed in the moment so far. `late` gathers what stands there from a write's output
// on, moved down: bit 0 if the output was listed before, others if a higher one was.
pub fn put_questions(moments: &[u64], outputs: &[u32]) -> Option<Order>
    requires { length moments.now ≡ length outputs.now }
    ensures { (values : List ℕ) → length values ≡ length moments.now → result ≡ verdict moments.now outputs.now values }
{
    let mut seen: u32 = 0;
    let mut late: u32 = 0;
    let mut before: u64 = 0;
    for (&moment, &output) in moments.iter().zip(outputs) {
        if output >= OUTPUTS {
            return None;
        }
        if moment != before {
            if moment < before {
                return None;
            }
            seen = 0;
            before = moment;
        }
        late |= seen >> output;
        seen |= 1 << output;
    }
    if late == 0 {
        return Some(Order::InOrder);
    }
    if late % 2 == 1 {
        return None;
    }
    Some(Order::AnyOrder)
}
