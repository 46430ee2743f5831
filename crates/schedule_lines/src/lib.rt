// Reads the lines of a schedule by places: the date's line, and a window's. Document 02: "input number, weekday 1 (Monday) to 7, opening
// and closing minute, 0 to 1,440 with opening below closing, parted by tabs".
// Any bytes may come; a line out of form, or with a number that is none of its kind, is an answer. It writes nothing.
#![tactic(auto)]

ghost use Rattle.std.specs.Prelude.{◌≡◌};
ghost use Rattle.text_place.specs.Texts.{Within};
ghost use Rattle.schedule.specs.Schedule.{is_window};
ghost use Rattle.schedule_lines.specs.Lines.{date_answer, window_answer};

use schedule::{Date, Window};
use schedule_calendar::is_real_date;
use text_fields::{Number, number_field};
use text_place::Place;

const INPUTS: u64 = 16;

const WEEKDAYS: u64 = 7;

const DAY_MINUTES: u64 = 1440;

// The date's line: a real date, the byte that closes the line, 0 at the end of the text, and the place past it.
#[derive(Clone, Copy)]
pub struct DateLine {
    pub date: Date,
    pub stop: u8,
    pub next: Place,
}

// A window's line: the window, the byte that closes the line, 0 at the end of the text, and the place past it.
#[derive(Clone, Copy)]
pub struct WindowLine {
    pub window: Window,
    pub stop: u8,
    pub next: Place,
}

// "an input below 16, and a real .. minute"
pub fn is_window(window: Window) -> bool
    ensures { result ≡ is_window window }
{
    if window.input >= INPUTS {
        return false;
    }
    if window.weekday < 1 || window.weekday > WEEKDAYS {
        return false;
    }
    window.opening < window.closing && window.closing <= DAY_MINUTES
}

// The date's line, at a place.
pub fn read_date(s: &[u8], place: Place) -> Option<DateLine>
    requires { Within s.now place.offset place.line }
    ensures { result ≡ date_answer s.now place }
{
    let Number::Read(year, b1, p1) = number_field(s, place, b'\t') else {
        return None;
    };
    let Number::Read(month, b2, p2) = number_field(s, p1, b1) else {
        return None;
    };
    let Number::Read(day, stop, next) = number_field(s, p2, b2) else {
        return None;
    };
    let date = Date { year, month, day };
    if stop == b'\t' || !is_real_date(date) {
        return None;
    }
    Some(DateLine { date, stop, next })
}

// A window's line, at a place.
pub fn read_window(s: &[u8], place: Place) -> Option<WindowLine>
    requires { Within s.now place.offset place.line }
    ensures { result ≡ window_answer s.now place }
{
    let Number::Read(input, b1, p1) = number_field(s, place, b'\t') else {
        return None;
    };
    let Number::Read(weekday, b2, p2) = number_field(s, p1, b1) else {
        return None;
    };
    let Number::Read(opening, b3, p3) = number_field(s, p2, b2) else {
        return None;
    };
    let Number::Read(closing, stop, next) = number_field(s, p3, b3) else {
        return None;
    };
    let window = Window {
        input,
        weekday,
        opening,
        closing,
    };
    if stop == b'\t' || !is_window(window) {
        return None;
    }
    Some(WindowLine { window, stop, next })
}
