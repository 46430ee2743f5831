// The writes of a session, gathered from its print into three lists, as the valve book's pages want them: `make_trace`, then `gather`.
#![tactic(auto)]

ghost use Rattle.std.specs.Prelude.{◌++◌, map, ◌≡◌, ◌+◌, ◌≤◌, length};
ghost use Rattle.walk.specs.Calls.{inputs_of};
ghost use Rattle.book_writes.specs.Gathered.{as_in_trace, writes_of_moment, first_writes, GatheredIs};

use session_trace::{Next, next_call};

// The places of each list: so many writes can be gathered.
pub const PLACES: usize = 16384;

// How many writes stand in the lists, and whether these are all.
#[derive(Clone, Copy)]
pub struct Gathered {
    pub count: usize,
    pub all: bool,
}

// A byte of a print, as it stands in a trace.
fn as_in_trace(b: u8) -> u8
    ensures { result ≡ as_in_trace b }
{
    if b == b'O' {
        return b'I';
    }
    b
}

// A print made a trace of writes: its lines of writes begin with `I` then.
pub fn make_trace(print: &mut [u8])
    ensures { print.new ≡ map as_in_trace print.old }
{
    for b in print.iter_mut() {
        *b = as_in_trace(*b);
    }
}

// The writes of one moment, put into the lists from a place on.
fn put_writes(
    moments: &mut [u64],
    outputs: &mut [u32],
    values: &mut [u32],
    at: usize,
    moment: u64,
    numbers: &[u32],
    words: &[u32],
)
    requires { (length moments.old ≡ 16384) × (length outputs.old ≡ 16384) × (length values.old ≡ 16384) × (at + length numbers.now ≤ 16384)
        × (length numbers.now ≡ length words.now) }
    ensures { (first_writes (at + length numbers.now) moments.new outputs.new values.new ≡
        first_writes at moments.old outputs.old values.old ++ writes_of_moment moment (inputs_of numbers.now words.now))
        × (length moments.new ≡ 16384) × (length outputs.new ≡ 16384) × (length values.new ≡ 16384) }
{
    let end = at + numbers.len();
    moments[at..end].fill(moment);
    outputs[at..end].copy_from_slice(numbers);
    values[at..end].copy_from_slice(words);
}

// All writes of a print that was made a trace, if there are places for them.
pub fn gather(
    print: &[u8],
    moments: &mut [u64],
    outputs: &mut [u32],
    values: &mut [u32],
) -> Gathered
    requires { (length moments.old ≡ 16384) × (length outputs.old ≡ 16384) × (length values.old ≡ 16384) }
    ensures { GatheredIs print.now 16384 moments.new outputs.new values.new result }
{
    let mut numbers = [0u32; 17];
    let mut words = [0u32; 17];
    let mut count: usize = 0;
    let mut at: usize = 0;
    while let Next::Call(moment, more, next) = next_call(print, at, &mut numbers, &mut words) {
        if more > PLACES - count {
            return Gathered { count, all: false };
        }
        put_writes(
            moments,
            outputs,
            values,
            count,
            moment,
            &numbers[..more],
            &words[..more],
        );
        count += more;
        at = next;
    }
    Gathered { count, all: true }
}
