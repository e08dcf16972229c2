//! Which times of the day an alarm asks for, and the next of them, with no search through the day.
ghost use Rattle.std.specs.Prelude.{◌≡◌, ℕ, ◌+◌, ◌%◌, ◌<◌, ◌≤◌, ◌^◌, ◌⊎◌, IfSome};
ghost use Rattle.rtc_calendar.specs.Bytes.{spelling, hour_spelling};
ghost use Rattle.rtc_calendar.specs.Alarms.{fits_byte};
ghost use Rattle.rtc_calendar.specs.private.Wanted.{is_wanted, lowest, IsBelow, IsInDay};
ghost use Rattle.rtc_calendar.specs.private.Wanted.{is_wanted_minute};
ghost use Rattle.rtc_calendar.specs.private.Wanted.{is_wanted_second, IsNext};

use crate::bytes::{hour_in, is_hour, is_spelt, number_in};
use crate::{Alarm, Form};

/// From this byte on both top bits are set, and an alarm byte matches anything.
pub(crate) const ANYTHING: u8 = 0xc0;

/// The numbers that an alarm byte matches, spelt as the form has it.
#[derive(Clone, Copy)]
pub enum Wanted {
    /// Each number.
    Anything,
    /// This number alone.
    Only(u8),
    /// None: the byte spells no number of the range.
    Nothing,
}

/// What the three bytes of an alarm match.
#[derive(Clone, Copy)]
pub struct WantedTime {
    pub second: Wanted,
    pub minute: Wanted,
    pub hour: Wanted,
}

/// The seconds or minutes that an alarm byte matches.
fn wanted_number(binary: bool, alarm: u8) -> Wanted
    ensures value { (number : ℕ) → number ≤ 59
        → is_wanted result number ≡ fits_byte alarm (spelling binary number) }
    ensures within { IsBelow result 60 }
{
    if alarm >= ANYTHING {
        Wanted::Anything
    } else if is_spelt(binary, 0, 59, alarm) {
        Wanted::Only(number_in(binary, 0, 59, alarm))
    } else {
        Wanted::Nothing
    }
}

/// The hours that an alarm byte matches.
fn wanted_hour(form: Form, alarm: u8) -> Wanted
    ensures value { (hour : ℕ) → hour ≤ 23
        → is_wanted result hour ≡ fits_byte alarm (hour_spelling form hour) }
    ensures within { IsBelow result 24 }
{
    if alarm >= ANYTHING {
        Wanted::Anything
    } else if is_hour(form, alarm) {
        Wanted::Only(hour_in(form, alarm))
    } else {
        Wanted::Nothing
    }
}

/// The times that an alarm matches.
pub(crate) fn wanted_time(form: Form, alarm: Alarm) -> WantedTime
    ensures second { (number : ℕ) → number ≤ 59
        → is_wanted result.second number ≡ fits_byte alarm.sec (spelling form.binary number) }
    ensures minute { (number : ℕ) → number ≤ 59
        → is_wanted result.minute number ≡ fits_byte alarm.min (spelling form.binary number) }
    ensures hour { (hour : ℕ) → hour ≤ 23
        → is_wanted result.hour hour ≡ fits_byte alarm.hour (hour_spelling form hour) }
    ensures within { IsInDay result }
{
    WantedTime {
        second: wanted_number(form.binary, alarm.sec),
        minute: wanted_number(form.binary, alarm.min),
        hour: wanted_hour(form, alarm.hour),
    }
}

/// The least number that is asked for.
fn lowest(wanted: Wanted) -> u64
    ensures value { result ≡ lowest wanted }
    ensures byte { result < 256 }
{
    match wanted {
        Wanted::Only(number) => u64::from(number),
        _ => 0,
    }
}

/// The first from `x` on whose last digit to this base is asked for.
fn next_digit(wanted: Wanted, base: u64, x: u64) -> Option<u64>
    requires base { (base ≡ 60) ⊎ (base ≡ 24) }
    requires within { IsBelow wanted base }
    requires small { x < 2 ^ 32 }
    ensures next { IsNext (λ y. is_wanted wanted (y % base)) x result }
    ensures near { IfSome result (λ y. y < x + base) }
{
    match wanted {
        Wanted::Anything => Some(x),
        Wanted::Only(number) => Some(x + (base + u64::from(number) - x % base) % base),
        Wanted::Nothing => None,
    }
}

/// The first minute from `x` on, minutes being counted from a midnight, whose hour and minute are asked for.
fn next_minute(wanted: WantedTime, x: u64) -> Option<u64>
    requires within { IsInDay wanted }
    requires small { x < 2 ^ 20 }
    ensures next { IsNext (is_wanted_minute wanted) x result }
    ensures near { IfSome result (λ y. y < x + 1560) }
{
    let near = next_digit(wanted.minute, 60, x)?;
    let hour = next_digit(wanted.hour, 24, near / 60)?;
    if hour == near / 60 {
        Some(near)
    } else {
        Some(hour * 60 + lowest(wanted.minute))
    }
}

/// The first second from `x` on, seconds being counted from a midnight, that is asked for.
pub(crate) fn next_second(wanted: WantedTime, x: u64) -> Option<u64>
    requires within { IsInDay wanted }
    requires small { x ≤ 86400 }
    ensures next { IsNext (is_wanted_second wanted) x result }
    ensures near { IfSome result (λ y. y < 2 ^ 32) }
{
    let near = next_digit(wanted.second, 60, x)?;
    let minute = next_minute(wanted, near / 60)?;
    if minute == near / 60 {
        Some(near)
    } else {
        Some(minute * 60 + lowest(wanted.second))
    }
}
