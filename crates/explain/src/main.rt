// Says of each listing whether it loads, and if not, at which line, why, and by which rule; of a trace after `-t`, whether the listing before it plays it to its
// end, and if not, at which line, why, and by which rule: `explain LISTING [-t TRACE] ..`. No byte of a file is printed raw. Without an argument: all rules.
#![tactic(auto)]

pub mod arguments;
pub mod traced;

use crate::arguments::{Held, held_after, put_end, put_word};
use std::io;
use streams::{argument, argument_count, buffer, large_buffer};

fn main(rt: HostRuntime) -> io::Result<()> {
    let errors = rt.stderr();
    let count = argument_count(&rt);
    let mut held = Held {
        listing: None,
        flagged: false,
    };
    for k in 1..count {
        let mut word = buffer();
        let length = argument(&rt, k, &mut word);
        let mut name = buffer();
        let named = match held.listing {
            Some(listing) => argument(&rt, listing, &mut name),
            None => 0,
        };
        let mut out = large_buffer();
        let n = put_word(&rt, errors, &mut out, &word[..length], &name[..named], held);
        rt.write_all(&out[..n])?;
        held = held_after(k, &word[..length], held);
    }
    let mut out = large_buffer();
    let n = put_end(&mut out, count, held);
    rt.write_all(&out[..n])
}
