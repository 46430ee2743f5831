// The minutes of a week from moment 0 on: in each, a bit for every input that is open. The week repeats.
// A window is marked in the minutes that it covers, so that windows which touch or overlap make one stretch by themselves.
#![tactic(auto)]

ghost use Rattle.std.specs.Prelude.{true, ◌≡◌, ◌<◌, ◌≤◌, length};
ghost use Rattle.schedule.specs.Schedule.{is_window};
ghost use Rattle.schedule_week.specs.Week.{Marked, begin_of, end_of};

use schedule::Window;

const DAY_MINUTES: u64 = 1440;

// Marks an input as open from one minute up to another.
fn mark_minutes(week: &mut [u16], input: u64, from: usize, to: usize)
    requires { (input < 16) × (from ≤ to) × (to ≤ length week.old) }
    ensures { Marked input from to week.old week.new }
{
    let bit: u16 = 1 << input;
    for minute in from..to {
        week[minute] |= bit;
    }
}

// Marks a window in the week of a schedule whose moment 0 falls on the weekday `first`.
pub fn mark_window(week: &mut [u16], first: u64, window: Window)
    requires { (1 ≤ first) × (first ≤ 7) × (is_window window ≡ true) × (length week.old ≡ 10080) }
    ensures { Marked window.input (begin_of first window) (end_of first window) week.old week.new }
{
    let midnight = (window.weekday + 7 - first) % 7 * DAY_MINUTES;
    mark_minutes(
        week,
        window.input,
        (midnight + window.opening) as usize,
        (midnight + window.closing) as usize,
    );
}
