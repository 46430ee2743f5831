// Edges stand on whole minutes: the first one of a span, and how many there are.
ghost use Rattle.std.specs.Prelude.{◌≡◌, ◌+◌, ◌%◌, ◌<◌};
ghost use Rattle.words.specs.Moments.{later_moment, later_of};
ghost use Rattle.schedule_minutes.specs.Minutes.{to_minute, minutes_between};

use crate::MINUTE;
use words::{Delay, Later, Moment, later_moment};

// The first whole minute at or after a moment; after moment 0, at which nothing is written.
pub fn first_minute(from: Moment) -> Later
    ensures { later_of result ≡ later_moment from.0 (to_minute from.0) }
{
    let moment = from.0;
    if moment == 0 {
        return later_moment(from, Delay(60000));
    }
    let past = (moment % MINUTE) as u32;
    if past == 0 {
        return later_moment(from, Delay(0));
    }
    later_moment(from, Delay(60000 - past))
}

// How many whole minutes lie from the first one on and before the end.
pub fn minutes_until(first: Moment, to: Moment) -> u64
    ensures { result ≡ minutes_between first.0 to.0 }
{
    let a = first.0;
    let b = to.0;
    if b <= a {
        return 0;
    }
    (b - a - 1) / MINUTE + 1
}
