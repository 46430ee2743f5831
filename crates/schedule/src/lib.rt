// A schedule of watering windows: its text, the calendar, the union of the windows and its edges, as definitions and theorems about them.
// Document 02: "The spring schedule is kept as lines in the listing's style, without a letter". The code that reads one stands above.
#![tactic(auto)]

// A Gregorian date.
#[derive(Clone, Copy, Debug, PartialEq, Eq)]
pub struct Date {
    pub year: u64,
    pub month: u64,
    pub day: u64,
}

// "input number, weekday 1 (Monday) to 7, opening and closing minute"
#[derive(Clone, Copy, Debug, PartialEq, Eq)]
pub struct Window {
    pub input: u64,
    pub weekday: u64,
    pub opening: u64,
    pub closing: u64,
}
