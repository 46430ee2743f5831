// How many edges a span has. The week repeats, so that a long span is counted by its weeks.
#![tactic(auto)]

ghost use Rattle.std.specs.Prelude.{◌≡◌, ℕ, ◌+◌, ◌*◌, ◌≤◌, length};
ghost use Rattle.schedule_minutes.specs.Minutes.{changes_of, minute_edges};

use schedule_minutes::{INPUTS, WEEK, bit_of, next_minute};

// How many inputs change from one minute's bits to the next one's.
fn count_changes(before: u16, at: u16) -> u64
    ensures { ((moment : ℕ) → result ≡ length (changes_of moment before at)) × (result ≤ 16) }
{
    if before == at {
        return 0;
    }
    let mut count: u64 = 0;
    for input in 0..INPUTS {
        if bit_of(before, input) != bit_of(at, input) {
            count += 1;
        }
    }
    count
}

// The edges of so many minutes, at most a week, from a minute on, which is counted from moment 0.
fn count_minutes(week: &[u16], minute: u64, minutes: u64) -> u64
    requires { (length week.now ≡ 10080) × (1 ≤ minute) × (minutes ≤ 10080) }
    ensures { (result ≡ length (minute_edges week.now minute minutes)) × (result ≤ 16 * minutes) }
{
    let mut before = week[((minute - 1) % WEEK) as usize];
    let mut at = (minute % WEEK) as usize;
    let mut count: u64 = 0;
    for _k in 0..minutes {
        let bits = week[at];
        count += count_changes(before, bits);
        before = bits;
        at = next_minute(at);
    }
    count
}

// The edges of any number of minutes: of what is left over beside whole weeks, and of the weeks, which are alike.
pub fn count_edges(week: &[u16], minute: u64, minutes: u64) -> u64
    requires { (length week.now ≡ 10080) × (1 ≤ minute) × (minute + minutes ≤ 1000000000000000) }
    ensures { result ≡ length (minute_edges week.now minute minutes) }
{
    let weeks = minutes / WEEK;
    let rest = minutes % WEEK;
    let first = count_minutes(week, minute, rest);
    if weeks == 0 {
        return first;
    }
    first + weeks * count_minutes(week, minute + rest, WEEK)
}
