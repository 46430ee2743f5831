// The calendar of a schedule: is a date real, and on which weekday does it fall? Any numbers are taken where a date may still be none.
#![tactic(auto)]

ghost use Rattle.std.specs.Prelude.{true, ◌≡◌, ◌+◌, ◌-◌, ◌<◌, ◌≤◌};
ghost use Rattle.schedule.specs.Calendar.{is_leap, month_days, year_days, is_real_date, days_of_years, days_of_months, weekday_after};

use schedule::Date;

// "year 2000 to 2199"
const FIRST_YEAR: u64 = 2000;

const LAST_YEAR: u64 = 2199;

const MONTHS: u64 = 12;

// The days of each month, in a leap year and in others.
const LEAP_MONTHS: [u64; 12] = [31, 29, 31, 30, 31, 30, 31, 31, 30, 31, 30, 31];

const OTHER_MONTHS: [u64; 12] = [31, 28, 31, 30, 31, 30, 31, 31, 30, 31, 30, 31];

// The days from a Monday to 1 January 2000, a Saturday.
const SATURDAY: u64 = 5;

// The leap rule.
pub fn is_leap(year: u64) -> bool
    ensures { result ≡ is_leap year }
{
    year % 4 == 0 && (year % 100 != 0 || year % 400 == 0)
}

// The days of a month, from 1 for January.
pub fn month_days(year: u64, month: u64) -> u64
    requires { (1 ≤ month) × (month ≤ 12) }
    ensures { (result ≡ month_days year month) × (result ≤ 31) }
{
    let at = (month - 1) as usize;
    if is_leap(year) {
        return LEAP_MONTHS[at];
    }
    OTHER_MONTHS[at]
}

fn year_days(year: u64) -> u64
    ensures { (result ≡ year_days year) × (result ≤ 366) }
{
    if is_leap(year) { 366 } else { 365 }
}

// "a real date", of any three numbers.
pub fn is_real_date(date: Date) -> bool
    ensures { result ≡ is_real_date date }
{
    if date.year < FIRST_YEAR || date.year > LAST_YEAR {
        return false;
    }
    if date.month < 1 || date.month > MONTHS {
        return false;
    }
    date.day >= 1 && date.day <= month_days(date.year, date.month)
}

// The days from 1 January 2000 to 1 January of a year.
fn days_of_years(year: u64) -> u64
    requires { (2000 ≤ year) × (year ≤ 2199) }
    ensures { (result ≡ days_of_years (year - 2000)) × (result ≤ 80000) }
{
    let mut days: u64 = 0;
    for y in FIRST_YEAR..year {
        days += year_days(y);
    }
    days
}

// The days of a year before a month.
fn days_of_months(year: u64, month: u64) -> u64
    requires { (1 ≤ month) × (month ≤ 12) }
    ensures { (result ≡ days_of_months year (month - 1)) × (result ≤ 400) }
{
    let mut days: u64 = 0;
    for m in 1..month {
        days += month_days(year, m);
    }
    days
}

// The weekday of a date, 1 for Monday to 7 for Sunday.
pub fn weekday_of(date: Date) -> u64
    requires { is_real_date date ≡ true }
    ensures { (result ≡ weekday_after date 0) × (1 ≤ result) × (result ≤ 7) }
{
    let days = days_of_years(date.year) + days_of_months(date.year, date.month) + (date.day - 1);
    1 + (SATURDAY + days) % 7
}
