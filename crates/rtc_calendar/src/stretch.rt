//! Any number of seconds at once, by the second of the day and the day of a century of 100 years.
ghost use Rattle.std.specs.Prelude.{◌≡◌, ◌+◌, ◌-◌, ◌*◌, ◌<◌, ◌≤◌};
ghost use Rattle.rtc_calendar.specs.Calendar.{month_length, IsMoment, next_seconds};
ghost use Rattle.rtc_calendar.specs.private.Days.{second_of_day, days_of_years, days_of_months};
ghost use Rattle.rtc_calendar.specs.private.Days.{day_number};

use crate::calendar::{Moment, month_length};

/// The seconds of a minute, an hour and a day.
const MINUTE: u64 = 60;

const HOUR: u64 = 3_600;

const DAY: u64 = 86_400;

/// The days of 100 years, every fourth of which has 366.
const CENTURY_DAYS: u64 = 36_525;

/// The days of four years, the first of which has 366.
const FOUR_YEARS_DAYS: u64 = 1_461;

/// A day of a year.
#[derive(Clone, Copy)]
struct Date {
    date: u8,
    month: u8,
}

/// The seconds of the day before a moment.
#[tactic(auto, unfolding(crate::specs::private::Days::second_of_day))]
pub(crate) fn second_of_day(m: Moment) -> u64
    requires { IsMoment m }
    ensures value { result ≡ second_of_day m }
    ensures below { result < 86400 }
{
    u64::from(m.hour) * HOUR + u64::from(m.minute) * MINUTE + u64::from(m.second)
}

/// The days of the century before a year.
#[tactic(auto, unfolding(crate::specs::private::Days::days_of_years))]
fn days_of_years(year: u64) -> u64
    requires { year ≤ 99 }
    ensures value { result ≡ days_of_years year }
    ensures few { result ≤ 36160 }
{
    year * 365 + (year + 3) / 4
}

/// The days of a year's first months.
fn days_of_months(year: u8, months: u8) -> u64
    requires { months ≤ 12 }
    ensures value { result ≡ days_of_months year months }
    ensures few { result ≤ 31 * months }
{
    let mut days = 0;
    for month in 0..months {
        days += u64::from(month_length(year, month + 1));
    }
    days
}

/// The days of the century before a date.
#[tactic(auto, unfolding(crate::specs::private::Days::day_number))]
fn day_number(m: Moment) -> u64
    requires { IsMoment m }
    ensures value { result ≡ day_number m }
    ensures below { result < 36525 }
{
    days_of_years(u64::from(m.year)) + days_of_months(m.year, m.month - 1) + u64::from(m.date - 1)
}

/// The date `day` days after the first of its year.
fn date_in_year(year: u8, day: u64) -> Date
    requires { day < days_of_months year 12 }
    ensures first_month { 1 ≤ result.month }
    ensures last_month { result.month ≤ 12 }
    ensures first_date { 1 ≤ result.date }
    ensures last_date { result.date ≤ month_length year result.month }
    ensures day { days_of_months year (result.month - 1) + (result.date - 1) ≡ day }
{
    let mut rest = day;
    for month in 1..12 {
        let length = u64::from(month_length(year, month));
        if rest < length {
            return Date {
                date: rest as u8 + 1,
                month,
            };
        }
        rest -= length;
    }
    Date {
        date: rest as u8 + 1,
        month: 12,
    }
}

/// The moment of a second of the day, a day of the century and a day of the week.
fn moment_at(second: u64, day: u64, weekday: u8) -> Moment
    requires in_day { second < 86400 }
    requires in_century { day < 36525 }
    requires first_weekday { 1 ≤ weekday }
    requires last_weekday { weekday ≤ 7 }
    ensures valid { IsMoment result }
    ensures second { second_of_day result ≡ second }
    ensures day { day_number result ≡ day }
    ensures weekday { result.weekday ≡ weekday }
{
    let year = day * 4 / FOUR_YEARS_DAYS;
    let date = date_in_year(year as u8, day - days_of_years(year));
    Moment {
        second: (second % MINUTE) as u8,
        minute: (second / MINUTE % 60) as u8,
        hour: (second / HOUR) as u8,
        weekday,
        date: date.date,
        month: date.month,
        year: year as u8,
    }
}

/// The moment at another second of the same day.
fn at_second(m: Moment, second: u64) -> Moment
    requires moment { IsMoment m }
    requires in_day { second < 86400 }
    ensures valid { IsMoment result }
    ensures second { second_of_day result ≡ second }
    ensures day { day_number result ≡ day_number m }
    ensures weekday { result.weekday ≡ m.weekday }
{
    Moment {
        second: (second % MINUTE) as u8,
        minute: (second / MINUTE % 60) as u8,
        hour: (second / HOUR) as u8,
        ..m
    }
}

/// The moment `n` seconds later. Where the day stays, the date isn't asked.
pub(crate) fn later(m: Moment, n: u64) -> Moment
    requires { IsMoment m }
    ensures { result ≡ next_seconds n m }
{
    let seconds = second_of_day(m) + n % DAY;
    let days = n / DAY + seconds / DAY;
    if days == 0 {
        return at_second(m, seconds);
    }
    let day = (day_number(m) + days) % CENTURY_DAYS;
    let weekday = (u64::from(m.weekday - 1) + days) % 7 + 1;
    moment_at(seconds % DAY, day, weekday as u8)
}
