// The first line of a schedule where question 19 says no, for those who are told of it: the call itself gives place 0.
ghost use Rattle.std.specs.Prelude.{◌≡◌, length, replicate};
ghost use Rattle.schedule.specs.Form.{place19};

use schedule_read::read_schedule;

// 7 days of 1,440 minutes.
const WEEK_MINUTES: usize = 10080;

// A week without a window.
fn empty_week() -> [u16; WEEK_MINUTES]
    ensures { (10080 ≡ length result) × (result ≡ replicate 10080 0) }
{
    [0; WEEK_MINUTES]
}

// That line, or 0 if the schedule passes.
pub fn first_bad_line(schedule: &[u8]) -> usize
    ensures { result ≡ place19 schedule.now }
{
    let mut week = empty_week();
    read_schedule(schedule, &mut week)
}
