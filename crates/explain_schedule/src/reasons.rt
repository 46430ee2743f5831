// The reasons why question 19 says no at a line of a schedule (document 02, Change 5).
use explain_fields::Reason as FormReason;

#[derive(Clone, Copy, Debug, PartialEq, Eq)]
pub enum Reason {
    // "lines in the listing's style": those of a listing's line or field
    Form(FormReason),
    // "in three such fields the Gregorian date (year 2000 to 2199, month, day)"
    DateCount,
    // "input number, weekday .., opening and closing minute .., parted by tabs"
    WindowCount,
    // "A first line (19 without it)"
    NoDate,
    // "each line closed by a line feed"
    NoLineFeed,
    // "an input below 16, and a real date or minute"
    NoYear,
    NoMonth,
    NoInput,
    // "weekday 1 (Monday) to 7"
    NoWeekday,
    // "opening and closing minute, 0 to 1,440 with opening below closing"
    NoMinute,
    // with the days of the month, and with the closing minute
    NoDay(u64),
    NotBelow(u64),
}
