//! A second of the clock and the calendar in plain numbers, whatever form the bytes have.
ghost use Rattle.std.specs.Prelude.{◌≡◌, ◌≤◌};
ghost use Rattle.rtc_calendar.specs.Calendar.{month_length, IsMoment, ends_minute, ends_hour};
ghost use Rattle.rtc_calendar.specs.Calendar.{ends_day, ends_month, ends_year, next_in};
ghost use Rattle.rtc_calendar.specs.Calendar.{next_second};

/// A second: hour 0 to 23, day of the week 1 (Sunday) to 7, date from 1, month 1 to 12, year 0 to 99.
#[derive(Clone, Copy)]
pub struct Moment {
    pub second: u8,
    pub minute: u8,
    pub hour: u8,
    pub weekday: u8,
    pub date: u8,
    pub month: u8,
    pub year: u8,
}

/// How many days a month of 1 to 12 has, in a year 0 to 99 of the century; February has 29 in every fourth year, 00 included.
#[tactic(auto, unfolding(crate::specs::Calendar::month_length))]
pub fn month_length(year: u8, month: u8) -> u8
    ensures value { result ≡ month_length year month }
    ensures shortest { 28 ≤ result }
    ensures longest { result ≤ 31 }
{
    match month {
        2 if year % 4 == 0 => 29,
        2 => 28,
        4 | 6 | 9 | 11 => 30,
        _ => 31,
    }
}

/// The number that follows in the range `low` to `high`, which begins again after its end.
#[tactic(auto, unfolding(crate::specs::Calendar::next_in))]
fn next_in(low: u8, high: u8, number: u8) -> u8
    requires { number ≤ high }
    ensures { result ≡ next_in low high number }
{
    if number == high { low } else { number + 1 }
}

/// The moment a second later.
#[tactic(auto, unfolding(crate::specs::Calendar::next_second, crate::specs::Calendar::ends_minute, crate::specs::Calendar::ends_hour, crate::specs::Calendar::ends_day, crate::specs::Calendar::ends_month, crate::specs::Calendar::ends_year))]
pub(crate) fn next_second(m: Moment) -> Moment
    requires { IsMoment m }
    ensures { result ≡ next_second m }
{
    let ends_minute = m.second == 59;
    let ends_hour = ends_minute && m.minute == 59;
    let ends_day = ends_hour && m.hour == 23;
    let last_date = month_length(m.year, m.month);
    let ends_month = ends_day && m.date == last_date;
    let ends_year = ends_month && m.month == 12;
    Moment {
        second: next_in(0, 59, m.second),
        minute: if ends_minute {
            next_in(0, 59, m.minute)
        } else {
            m.minute
        },
        hour: if ends_hour {
            next_in(0, 23, m.hour)
        } else {
            m.hour
        },
        weekday: if ends_day {
            next_in(1, 7, m.weekday)
        } else {
            m.weekday
        },
        date: if ends_day {
            next_in(1, last_date, m.date)
        } else {
            m.date
        },
        month: if ends_month {
            next_in(1, 12, m.month)
        } else {
            m.month
        },
        year: if ends_year {
            next_in(0, 99, m.year)
        } else {
            m.year
        },
    }
}
