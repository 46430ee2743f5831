// Reads a whole schedule, and marks its windows in a week. Document 02: "19: has each line its form, an input below 16, and a real date or
// minute?" Any bytes may come.
#![tactic(auto)]

ghost use Rattle.std.specs.Prelude.{◌≡◌, ◌≤◌, replicate};
ghost use Rattle.text_place.specs.Texts.{Within};
ghost use Rattle.schedule_read.specs.Reading.{Reads, ReadsWindows};

use schedule_calendar::weekday_of;
use schedule_lines::{read_date, read_window};
use schedule_week::mark_window;
use text_place::Place;

// Marks the windows of all lines from a place on; the first line that is no window, or 0.
fn read_windows(s: &[u8], place: Place, first: u64, week: &mut [u16]) -> usize
    requires { Within s.now place.offset place.line × (1 ≤ place.line) × (1 ≤ first) × (first ≤ 7) × (week.old ≡ replicate 10080 0) }
    ensures { ReadsWindows s.now place first week.new result }
{
    let mut at = place;
    // Each line tells where the next one begins: no range counts the lines.
    while at.offset < s.len() {
        let Some(read) = read_window(s, at) else {
            return at.line;
        };
        if read.stop != b'\n' {
            return at.line;
        }
        mark_window(week, first, read.window);
        at = read.next;
    }
    0
}

// Question 19: the first line where the answer is no, or 0. The week then has the windows of the lines before it.
pub fn read_schedule(s: &[u8], week: &mut [u16]) -> usize
    requires { week.old ≡ replicate 10080 0 }
    ensures { Reads s.now week.new result }
{
    let Some(read) = read_date(s, Place { offset: 0, line: 1 }) else {
        return 1;
    };
    if read.stop != b'\n' {
        return 1;
    }
    read_windows(s, read.next, weekday_of(read.date), week)
}
