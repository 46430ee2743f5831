// The edges of a span written into three lists: those of the first week by its minutes, each later one from the edge a week before it.
#![tactic(auto)]

ghost use Rattle.std.specs.Prelude.{◌≡◌, ◌+◌, ◌-◌, ◌*◌, ◌/◌, ◌%◌, ◌<◌, ◌≤◌, length, get_or, set, eqb};
ghost use Rattle.schedule.specs.Edges.{change};
ghost use Rattle.schedule_minutes.specs.Minutes.{changes_of, minute_edges};
ghost use Rattle.schedule_list.specs.Lists.{Fits, Written};

use schedule_minutes::{INPUTS, MINUTE, WEEK, bit_of, next_minute};
use words::{Delay, Later, Moment, later_moment};

// A week in milliseconds.
const WEEK_DELAY: u32 = 604800000;

// The change of an input whose bit was `was` and is `is`, written at a place; the place after it.
fn list_change(
    moment: u64,
    input: u64,
    was: u16,
    is: u16,
    place: usize,
    moments: &mut [u64],
    inputs: &mut [u32],
    values: &mut [u32],
) -> usize
    requires { (input < 16) × (was < 2) × (is < 2) × Fits (change moment input (eqb was 1) (eqb is 1)) place moments.old inputs.old values.old }
    ensures { Written (change moment input (eqb was 1) (eqb is 1)) place moments.old inputs.old values.old
        moments.new inputs.new values.new result }
{
    if was == is {
        return place;
    }
    moments[place] = moment;
    inputs[place] = input as u32;
    values[place] = is as u32;
    place + 1
}

// The changes from one minute's bits to the next one's, written at a place; the place after them.
fn list_changes(
    moment: u64,
    before: u16,
    at: u16,
    place: usize,
    moments: &mut [u64],
    inputs: &mut [u32],
    values: &mut [u32],
) -> usize
    requires { Fits (changes_of moment before at) place moments.old inputs.old values.old }
    ensures { Written (changes_of moment before at) place moments.old inputs.old values.old
        moments.new inputs.new values.new result }
{
    let mut next = place;
    for input in 0..INPUTS {
        let was = bit_of(before, input);
        let is = bit_of(at, input);
        next = list_change(moment, input, was, is, next, moments, inputs, values);
    }
    next
}

// The edges of the minute that lies so many minutes after the first one, written at a place; the place after them.
fn list_minute(
    first: u64,
    later: u64,
    before: u16,
    at: u16,
    place: usize,
    moments: &mut [u64],
    inputs: &mut [u32],
    values: &mut [u32],
) -> usize
    requires { (later < 10080) × (first + later * 60000 < 18446744073709551616)
        × Fits (changes_of (first + later * 60000) before at) place moments.old inputs.old values.old }
    ensures { Written (changes_of (first + later * 60000) before at) place moments.old inputs.old values.old
        moments.new inputs.new values.new result }
{
    if before == at {
        return place;
    }
    let delay = (later * MINUTE) as u32;
    let Later::At(moment) = later_moment(Moment(first), Delay(delay)) else {
        return place;
    };
    list_changes(moment.0, before, at, place, moments, inputs, values)
}

// The edges of so many minutes, at most a week, from the whole minute `first` on, written from the lists' beginning; how many.
fn list_minutes(
    week: &[u16],
    first: u64,
    minutes: u64,
    moments: &mut [u64],
    inputs: &mut [u32],
    values: &mut [u32],
) -> usize
    requires { (length week.now ≡ 10080) × (first % 60000 ≡ 0) × (1 ≤ first / 60000) × (minutes ≤ 10080) × (first + minutes * 60000 < 18446744073709551616 + 60000)
        × Fits (minute_edges week.now (first / 60000) minutes) 0 moments.old inputs.old values.old }
    ensures { Written (minute_edges week.now (first / 60000) minutes) 0 moments.old inputs.old values.old
        moments.new inputs.new values.new result }
{
    let minute = first / MINUTE;
    let mut before = week[((minute - 1) % WEEK) as usize];
    let mut at = (minute % WEEK) as usize;
    let mut place: usize = 0;
    for k in 0..minutes {
        let bits = week[at];
        place = list_minute(first, k, before, bits, place, moments, inputs, values);
        before = bits;
        at = next_minute(at);
    }
    place
}

// The input at one place written at another, a week later.
fn list_again(
    from: usize,
    place: usize,
    moments: &mut [u64],
    inputs: &mut [u32],
    values: &mut [u32],
)
    requires { (from < place) × (place < length moments.old) × (place < length inputs.old) × (place < length values.old)
        × (get_or moments.old from 0 + 604800000 < 18446744073709551616) }
    ensures { (moments.new ≡ set moments.old place (get_or moments.old from 0 + 604800000))
        × (inputs.new ≡ set inputs.old place (get_or inputs.old from 0))
        × (values.new ≡ set values.old place (get_or values.old from 0)) }
{
    let earlier = moments[from];
    let Later::At(moment) = later_moment(Moment(earlier), Delay(WEEK_DELAY)) else {
        return;
    };
    moments[place] = moment.0;
    inputs[place] = inputs[from];
    values[place] = values[from];
}

// All edges of so many minutes from the whole minute `first` on, `total` of them, written from the lists' beginning: those of the first
// week by its minutes, the others from those a week before.
pub fn list_edges(
    week: &[u16],
    first: u64,
    minutes: u64,
    total: usize,
    moments: &mut [u64],
    inputs: &mut [u32],
    values: &mut [u32],
)
    requires { (length week.now ≡ 10080) × (first % 60000 ≡ 0) × (1 ≤ first / 60000) × (first + minutes * 60000 < 18446744073709551616 + 60000)
        × (total ≡ length (minute_edges week.now (first / 60000) minutes))
        × Fits (minute_edges week.now (first / 60000) minutes) 0 moments.old inputs.old values.old }
    ensures { Written (minute_edges week.now (first / 60000) minutes) 0 moments.old inputs.old values.old
        moments.new inputs.new values.new total }
{
    if minutes <= WEEK {
        list_minutes(week, first, minutes, moments, inputs, values);
        return;
    }
    let weekly = list_minutes(week, first, WEEK, moments, inputs, values);
    for place in weekly..total {
        list_again(place - weekly, place, moments, inputs, values);
    }
}
