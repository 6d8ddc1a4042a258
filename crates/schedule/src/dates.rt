// Dates of the Gregorian calendar, and days by their number, that of 2000-01-01 being 0.
ghost use Rattle.std.specs.Prelude.{◌≡◌, true, ◌-◌, ◌≤◌, ◌<◌};
ghost use Rattle.laws.specs.Sums.{one_if};
ghost use Rattle.schedule.specs.Dates as definitions;

use crate::Date;

fn is_leap(year: u32) -> bool
    ensures { result ≡ definitions.leap year }
{
    year % 400 == 0 || (year % 4 == 0 && year % 100 != 0)
}

// 1 for a leap year.
fn leap_day(year: u32) -> u32
    ensures { (result ≡ one_if (definitions.leap year)) × (result ≤ 1) }
{
    u32::from(is_leap(year))
}

fn days_of_month(year: u32, month: u32) -> u32
    requires { (1 ≤ month) × (month ≤ 12) }
    ensures { (result ≡ definitions.days_of_month year month) × (result ≤ 31) }
{
    if month == 2 {
        28 + leap_day(year)
    } else {
        30 + (month + month / 8) % 2
    }
}

// The days of the months before this one. From March on they are those of months that are 367 twelfths of a day long, less two days of
// February.
fn days_before_month(year: u32, month: u32) -> u32
    requires { (1 ≤ month) × (month ≤ 12) }
    ensures { (result ≡ definitions.days_of_months year (month - 1)) × (result ≤ 335) }
{
    if month < 3 {
        31 * (month - 1)
    } else {
        (367 * month - 386) / 12 + leap_day(year)
    }
}

// The days of the years from 2000 to the one before this.
fn days_before_year(year: u32) -> u32
    requires { (2000 ≤ year) × (year ≤ 2201) }
    ensures { (result ≡ definitions.days_of_years (year - 2000)) × (result ≤ 73414) }
{
    let y = year - 2000;
    y * 365 + (y + 3) / 4 + (y + 399) / 400 - (y + 99) / 100
}

// Whether a date exists from 2000 to 2199.
pub(crate) fn exists(date: Date) -> bool
    ensures { result ≡ definitions.exists date }
{
    (2000..=2199).contains(&date.year)
        && (1..=12).contains(&date.month)
        && (1..=days_of_month(date.year, date.month)).contains(&date.day)
}

// The number of a date.
pub(crate) fn day_number(date: Date) -> u32
    requires { definitions.exists date ≡ true }
    ensures { (result ≡ definitions.day_number date) × (result ≤ 73048) }
{
    days_before_year(date.year) + (days_before_month(date.year, date.month) + (date.day - 1))
}

// The date that is lent as the number year × 10,000 + month × 100 + day.
pub fn date_in(number: u32) -> Date
    ensures { result ≡ definitions.date_in number }
{
    Date {
        year: number / 10000,
        month: number / 100 % 100,
        day: number % 100,
    }
}

// The year that has a day.
fn year_of(day: u32) -> u32
    requires { day < 73414 }
    ensures { (result ≡ definitions.year_of day) × ((2000 ≤ result) × (result ≤ 2200)) }
{
    for year in 2000..2200 {
        if day < days_before_year(year + 1) {
            return year;
        }
    }
    2200
}

// The month of a year that has its day, the first day being 0.
fn month_of(year: u32, day: u32) -> u32
    requires { day < definitions.days_of_year year }
    ensures { (result ≡ definitions.month_of year day) × ((1 ≤ result) × (result ≤ 12)) }
{
    for month in 1..12 {
        if day < days_before_month(year, month + 1) {
            return month;
        }
    }
    12
}

// The date of a day.
pub(crate) fn date_of(day: u32) -> Date
    requires { day < 73414 }
    ensures { result ≡ definitions.date_of day }
{
    let year = year_of(day);
    let rest = day - days_before_year(year);
    let month = month_of(year, rest);
    Date {
        year,
        month,
        day: 1 + (rest - days_before_month(year, month)),
    }
}
