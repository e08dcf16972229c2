//! The alarm: which updates it matches.
ghost use Rattle.std.specs.Prelude.{◌≡◌, ◌<◌, ◌≤◌, IsTrue};
ghost use Rattle.clk_units.specs.Events.{IsFirst};
ghost use Rattle.rtc_calendar.specs.declared.TimeBytes.{TimeBytes};
ghost use Rattle.rtc_calendar.specs.Calendar.{IsMoment};
ghost use Rattle.rtc_calendar.specs.Updates.{moment_of};
ghost use Rattle.rtc_calendar.specs.Alarms.{fits_byte, is_match, IsDontCare, matches_in};

use crate::calendar::Moment;
use crate::stretch::second_of_day;
use crate::updates::moment_of;
use crate::wanted::{ANYTHING, next_second, wanted_time};
use crate::{Alarm, Form, TimeBytes};

/// Whether an alarm byte matches a time byte.
#[tactic(auto, unfolding(crate::specs::Alarms::fits_byte))]
fn fits_byte(alarm: u8, byte: u8) -> bool
    ensures value { result ≡ fits_byte alarm byte }
    ensures any { 192 ≤ alarm → IsTrue result }
{
    alarm >= ANYTHING || alarm == byte
}

/// Whether the alarm matches the bytes: each of its three bytes has both top bits set, or equals its time
/// byte (data sheet, "Alarm").
#[tactic(auto, unfolding(crate::specs::Alarms::is_match))]
pub fn matches(bytes: TimeBytes, alarm: Alarm) -> bool
    ensures value { result ≡ is_match alarm bytes }
    ensures any { IsDontCare alarm → IsTrue result }
{
    fits_byte(alarm.sec, bytes.sec)
        && fits_byte(alarm.min, bytes.min)
        && fits_byte(alarm.hour, bytes.hour)
}

/// The first of the next `n` updates after which the alarm matches the bytes, updates being counted from 1
/// (data sheet, "Alarm"), or `None` where it matches after none of them. It costs the same whatever `n` is:
/// the second that comes next, then its minute, then its hour.
pub fn first_match(bytes: TimeBytes, form: Form, alarm: Alarm, n: u64) -> Option<u64>
    ensures first { IsFirst (matches_in form alarm bytes) n result }
    ensures any { IsDontCare alarm → 0 < n → result ≡ Some 1 }
{
    if n == 0 {
        return None;
    }
    match_after(moment_of(bytes, form), form, alarm, n)
}

/// The same from the moment that the bytes stand for.
pub(crate) fn match_after(m: Moment, form: Form, alarm: Alarm, n: u64) -> Option<u64>
    requires { IsMoment m }
    ensures { (bytes : TimeBytes) → m ≡ moment_of form bytes
        → IsFirst (matches_in form alarm bytes) n result }
{
    let start = second_of_day(m) + 1;
    let next = next_second(wanted_time(form, alarm), start)?;
    let update = next - start + 1;
    if update <= n { Some(update) } else { None }
}
