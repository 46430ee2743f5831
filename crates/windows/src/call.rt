// The call: question 19, then question 1; then the inputs.
ghost use Rattle.windows.specs.Call.{WindowsFigures};

use crate::answer::{Listed, refused};
use crate::span::list_span;
use schedule_read::read_schedule;

// Lists the inputs of a span of moments.
pub fn list_windows(
    schedule: &[u8],
    from: u64,
    to: u64,
    moments: &mut [u64],
    inputs: &mut [u32],
    values: &mut [u32],
) -> Listed
    ensures { WindowsFigures schedule.now from to moments.old inputs.old values.old
        moments.new inputs.new values.new result }
{
    let mut week = [0u16; 10080];
    let line = read_schedule(schedule, &mut week);
    if line != 0 {
        return refused(19);
    }
    list_span(&week, from, to, moments, inputs, values)
}
