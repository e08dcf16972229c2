//! How a time byte spells a number.
ghost use Rattle.std.specs.Prelude.{◌≡◌, ◌<◌, ◌≤◌};
ghost use Rattle.rtc_calendar.specs.Bytes.{spelt, has_digits, is_spelt, number_in, spelling};
ghost use Rattle.rtc_calendar.specs.Bytes.{is_hour, hour_meant, hour_in, hour_of_twelve};
ghost use Rattle.rtc_calendar.specs.Bytes.{hour_spelling};

use crate::Form;

/// The bit of an hour byte in 12-hour form that stands for PM.
const PM: u8 = 0x80;

/// The hours of half a day.
const HALF_DAY: u8 = 12;

/// The number that a byte spells: itself in binary, and else a decimal digit in each half.
#[tactic(auto, unfolding(crate::specs::Bytes::spelt))]
pub fn spelt(binary: bool, byte: u8) -> u8
    ensures { result ≡ spelt binary byte }
{
    if binary {
        byte
    } else {
        byte / 16 * 10 + byte % 16
    }
}

/// Whether both halves of the byte are decimal digits.
#[tactic(auto, unfolding(crate::specs::Bytes::has_digits))]
fn has_digits(byte: u8) -> bool
    ensures { result ≡ has_digits byte }
{
    byte / 16 <= 9 && byte % 16 <= 9
}

/// Whether the byte spells a number of `low` to `high`.
#[tactic(auto, unfolding(crate::specs::Bytes::is_spelt))]
pub fn is_spelt(binary: bool, low: u8, high: u8, byte: u8) -> bool
    ensures { result ≡ is_spelt binary low high byte }
{
    let number = spelt(binary, byte);
    (binary || has_digits(byte)) && low <= number && number <= high
}

/// The number read from a byte of the range `low` to `high`; an invalid byte counts as `low` (own).
#[tactic(auto, unfolding(crate::specs::Bytes::number_in, crate::specs::Bytes::is_spelt))]
pub(crate) fn number_in(binary: bool, low: u8, high: u8, byte: u8) -> u8
    ensures value { result ≡ number_in binary low high byte }
    ensures least { low ≤ result }
    ensures greatest { low ≤ high → result ≤ high }
{
    if is_spelt(binary, low, high, byte) {
        spelt(binary, byte)
    } else {
        low
    }
}

/// The byte that spells a number below 100.
#[tactic(auto, unfolding(crate::specs::Bytes::spelling))]
pub(crate) fn spelling(binary: bool, number: u8) -> u8
    requires { number ≤ 99 }
    ensures value { result ≡ spelling binary number }
    ensures bit_7_clear { number < 80 → result < 128 }
{
    if binary {
        number
    } else {
        number / 10 * 16 + number % 10
    }
}

/// Whether the byte is an hour.
#[tactic(auto, unfolding(crate::specs::Bytes::is_hour))]
pub(crate) fn is_hour(form: Form, byte: u8) -> bool
    ensures { result ≡ is_hour form byte }
{
    if form.hours24 {
        is_spelt(form.binary, 0, 23, byte)
    } else {
        is_spelt(form.binary, 1, 12, byte % PM)
    }
}

/// The hour of the day, 0 to 23, read from its byte; an invalid byte counts as hour 0 (own). In 12-hour form hour 12 opens its half of the day.
#[tactic(auto, unfolding(crate::specs::Bytes::hour_in, crate::specs::Bytes::hour_meant, crate::specs::Bytes::is_hour, crate::specs::Bytes::is_spelt))]
pub(crate) fn hour_in(form: Form, byte: u8) -> u8
    ensures value { result ≡ hour_in form byte }
    ensures greatest { result ≤ 23 }
    ensures byte { byte < 256 }
{
    if !is_hour(form, byte) {
        0
    } else if form.hours24 {
        spelt(form.binary, byte)
    } else {
        spelt(form.binary, byte % PM) % HALF_DAY + if byte >= PM { HALF_DAY } else { 0 }
    }
}

/// The hour as a clock of twelve hours shows it, 1 to 12.
#[tactic(auto, unfolding(crate::specs::Bytes::hour_of_twelve))]
fn hour_of_twelve(hour: u8) -> u8
    ensures value { result ≡ hour_of_twelve hour }
    ensures greatest { result ≤ 12 }
{
    if hour % HALF_DAY == 0 {
        HALF_DAY
    } else {
        hour % HALF_DAY
    }
}

/// The byte of an hour of the day.
#[tactic(auto, unfolding(crate::specs::Bytes::hour_spelling))]
pub(crate) fn hour_spelling(form: Form, hour: u8) -> u8
    requires { hour ≤ 23 }
    ensures { result ≡ hour_spelling form hour }
{
    if form.hours24 {
        spelling(form.binary, hour)
    } else {
        spelling(form.binary, hour_of_twelve(hour)) + if hour >= HALF_DAY { PM } else { 0 }
    }
}
