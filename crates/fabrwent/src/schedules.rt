// The inputs of a span of moments, of a schedule of watering windows. Document 02: "The layer lists the inputs of any span of moments,
// start included and end left out, by moment and then input: 1 at the opening minute, 0 at the closing minute."
ghost use Rattle.windows.specs.Call.{WindowsFigures};

use windows::{Listed, list_windows};

pub fn fabrwent_windows(
    schedule: &[u8],
    from: u64,
    to: u64,
    moments: &mut [u64],
    inputs: &mut [u32],
    values: &mut [u32],
) -> Listed
    ensures { WindowsFigures schedule.now from to moments.old inputs.old values.old
        moments.new inputs.new values.new result }
{
    list_windows(schedule, from, to, moments, inputs, values)
}
