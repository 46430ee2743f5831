// Why the numbers of a line are no date or no window.
ghost use Rattle.std.specs.Prelude.{◌≡◌};
ghost use Rattle.explain_schedule.specs.Ranges.{outside, date_range, window_range};

use crate::reasons::Reason;
use explain_fields::{Fault, Spot};
use schedule_calendar::month_days;

// "year 2000 to 2199"
const FIRST_YEAR: u64 = 2000;

const LAST_YEAR: u64 = 2199;

const MONTHS: u64 = 12;

// "an input below 16"
const INPUTS: u64 = 16;

const WEEKDAYS: u64 = 7;

const DAY_MINUTES: u64 = 1440;

// A number that is wrong: the only piece of its field.
fn outside(why: Reason, field: usize) -> Fault<Reason>
    ensures { result ≡ outside why field }
{
    Fault {
        why,
        spot: Spot::Piece(field, 1),
    }
}

// The numbers of a date.
pub fn date_range(year: u64, month: u64, day: u64) -> Option<Fault<Reason>>
    ensures { result ≡ date_range year month day }
{
    if year < FIRST_YEAR {
        return Some(outside(Reason::NoYear, 1));
    }
    if year > LAST_YEAR {
        return Some(outside(Reason::NoYear, 1));
    }
    if month < 1 {
        return Some(outside(Reason::NoMonth, 2));
    }
    if month > MONTHS {
        return Some(outside(Reason::NoMonth, 2));
    }
    let days = month_days(year, month);
    if day < 1 {
        return Some(outside(Reason::NoDay(days), 3));
    }
    if day > days {
        return Some(outside(Reason::NoDay(days), 3));
    }
    None
}

// The numbers of a window.
pub fn window_range(input: u64, weekday: u64, opening: u64, closing: u64) -> Option<Fault<Reason>>
    ensures { result ≡ window_range input weekday opening closing }
{
    if input >= INPUTS {
        return Some(outside(Reason::NoInput, 1));
    }
    if weekday < 1 {
        return Some(outside(Reason::NoWeekday, 2));
    }
    if weekday > WEEKDAYS {
        return Some(outside(Reason::NoWeekday, 2));
    }
    if closing > DAY_MINUTES {
        return Some(outside(Reason::NoMinute, 4));
    }
    if opening >= closing {
        return Some(outside(Reason::NotBelow(closing), 3));
    }
    None
}
