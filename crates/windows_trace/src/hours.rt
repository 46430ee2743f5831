// The lines of a span of at most an hour: 60 minutes of 16 inputs, so at most 960 of them, whatever the schedule is.
ghost use Rattle.std.specs.Prelude.{◌≡◌, ◌+◌, ◌≤◌, length};
ghost use Rattle.schedule.specs.Form.{read_schedule};
ghost use Rattle.session_print.specs.Puts.{Puts};
ghost use Rattle.windows_trace.specs.Trace.{trace_lines, edges_read};

use crate::lines::put_input_lines;
use windows::list_windows;

const PLACES: usize = 960;

// A list for the moments, and one for the inputs or the values.
fn moment_list() -> [u64; PLACES]
    ensures { 960 ≡ length result }
{
    [0; PLACES]
}

fn word_list() -> [u32; PLACES]
    ensures { 960 ≡ length result }
{
    [0; PLACES]
}

// The lines of a span, or nothing of a schedule that question 19 turns away; how many bytes.
pub fn put_hour(out: &mut [u8], schedule: &[u8], from: u64, to: u64) -> usize
    requires { to ≤ from + 3600000 }
    ensures { Puts out.old 0 (trace_lines (edges_read (read_schedule schedule.now) from to)) out.new result × (result ≤ 62400) }
{
    let mut moments = moment_list();
    let mut inputs = word_list();
    let mut values = word_list();
    let answer = list_windows(schedule, from, to, &mut moments, &mut inputs, &mut values);
    let listed = answer.listed as usize;
    put_input_lines(
        out,
        &moments[..listed],
        &inputs[..listed],
        &values[..listed],
    )
}
