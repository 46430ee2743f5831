// Prints a schedule's inputs as a session's trace, from moment 0 on for so many days: `schedule_trace SCHEDULE DAYS`.
// Document 01: "lines `I|time|input|value` .. and last `Q|time`". The lines are put by windows_trace, with their promises; if question 19 says no
// nothing is printed, and the first line that it stops at is named on standard error.
#![tactic(auto)]

pub mod arguments;

ghost use Rattle.std.specs.Prelude.{length, ◌≡◌, ◌≤◌};
ghost use Rattle.session_print.specs.Puts.{Puts};
ghost use Rattle.schedule_trace.specs.Reasons.{why_none};

use crate::arguments::{SCHEDULE_BYTES, days_argument, read_argument};
use session_print::figure::put_figure;
use std::io;
use streams::{large_buffer, say};
use test_cases::report::put_text;
use windows_trace::hours::put_hour;
use windows_trace::lines::put_last_line;
use windows_trace::schedules::first_bad_line;

const HOUR: u64 = 3600000;

// Memory for the schedule.
fn text() -> [u8; SCHEDULE_BYTES]
    ensures { 262144 ≡ length result }
{
    [0; SCHEDULE_BYTES]
}

// Why nothing is printed, of so many bytes read and the first line where question 19 says no; no bytes if there is none. How many bytes.
fn put_reason(out: &mut [u8], read: usize, line: usize) -> usize
    ensures { Puts out.old 0 (why_none read line) out.new result × (result ≤ 300) }
{
    if read == SCHEDULE_BYTES {
        return put_text(
            out,
            0,
            b"schedule_trace: the schedule has 262,144 bytes or more\n",
        );
    }
    if line == 0 {
        return 0;
    }
    let a = put_text(out, 0, b"schedule_trace: line ");
    let b = put_figure(out, a, line as u64);
    if line == 1 {
        return put_text(
            out,
            b,
            b" is no date: year (2000 to 2199), month and day, parted by tabs, closed by a line feed (19)\n",
        );
    }
    put_text(
        out,
        b,
        b" is no window: input (0 to 15), weekday (1 to 7), opening and closing minute (0 to 1440, opening below closing), parted by tabs, closed by a line feed (19)\n",
    )
}

fn main(rt: HostRuntime) -> io::Result<()> {
    let errors = rt.stderr();
    let mut schedule = text();
    let read = read_argument(&rt, errors, 1, &mut schedule);
    let days = days_argument(&rt, 2);
    let Some(n) = read.filter(|_| days != 0) else {
        say(
            &errors,
            b"usage: schedule_trace SCHEDULE DAYS\nSCHEDULE is a file that can be read, DAYS a number from 1 to 9999.\n",
        );
        return Ok(());
    };
    let mut out = large_buffer();
    let told = put_reason(&mut out, n, first_bad_line(&schedule[..n]));
    if told != 0 {
        say(&errors, &out[..told]);
        return Ok(());
    }
    let hours = days * 24;
    for hour in 0..hours {
        let put = put_hour(&mut out, &schedule[..n], hour * HOUR, hour * HOUR + HOUR);
        rt.write_all(&out[..put])?;
    }
    let last = put_last_line(&mut out, hours * HOUR);
    rt.write_all(&out[..last])
}
