// The inputs of a span, from the week of a schedule.
ghost use Rattle.std.specs.Prelude.{◌≡◌, length};
ghost use Rattle.windows.specs.Span.{SpanListed};

use crate::answer::{Listed, gone_through, refused};
use schedule_count::count_edges;
use schedule_list::list_edges;
use schedule_minutes::{MINUTE, first_minute, minutes_until};
use words::{Later, Moment};

// The inputs of a span, of a schedule that has passed question 19 and stands in a week; question 1.
pub fn list_span(
    week: &[u16],
    from: u64,
    to: u64,
    moments: &mut [u64],
    inputs: &mut [u32],
    values: &mut [u32],
) -> Listed
    requires { length week.now ≡ 10080 }
    ensures { SpanListed week.now from to moments.old inputs.old values.old
        moments.new inputs.new values.new result }
{
    let Later::At(first) = first_minute(Moment(from)) else {
        return gone_through(0);
    };
    let minutes = minutes_until(first, Moment(to));
    let total = count_edges(week, first.0 / MINUTE, minutes);
    if (moments.len() as u64) < total {
        return refused(1);
    }
    if (inputs.len() as u64) < total {
        return refused(1);
    }
    if (values.len() as u64) < total {
        return refused(1);
    }
    list_edges(
        week,
        first.0,
        minutes,
        total as usize,
        moments,
        inputs,
        values,
    );
    gone_through(total)
}
