//! Updates: the second that the clock adds to its bytes.
ghost use Rattle.std.specs.Prelude.{◌≡◌, ◌<◌};
ghost use Rattle.rtc_calendar.specs.Calendar.{IsMoment, next_second};
ghost use Rattle.rtc_calendar.specs.Updates.{moment_of, bytes_of, updated, updated_times, IsValid};
ghost use Rattle.rtc_calendar.specs.Updates.{IsDayLater};

use crate::bytes::{hour_in, hour_spelling, number_in, spelling};
use crate::calendar::{Moment, month_length, next_second};
use crate::stretch::later;
use crate::{Form, TimeBytes};

/// The moment that the bytes stand for. An invalid byte counts as its lowest value, and a date above the
/// month's length is invalid (own).
#[tactic(auto, unfolding(crate::specs::Updates::moment_of, crate::specs::Updates::month_in, crate::specs::Updates::year_in, crate::specs::Updates::last_date_in))]
pub(crate) fn moment_of(bytes: TimeBytes, form: Form) -> Moment
    ensures value { result ≡ moment_of form bytes }
    ensures valid { IsMoment result }
    // what a caller doesn't know of a field that it leaves alone
    ensures byte { bytes.hour < 256 }
{
    let month = number_in(form.binary, 1, 12, bytes.month);
    let year = number_in(form.binary, 0, 99, bytes.year);
    Moment {
        second: number_in(form.binary, 0, 59, bytes.sec),
        minute: number_in(form.binary, 0, 59, bytes.min),
        hour: hour_in(form, bytes.hour),
        weekday: number_in(form.binary, 1, 7, bytes.wday),
        date: number_in(form.binary, 1, month_length(year, month), bytes.date),
        month,
        year,
    }
}

/// The bytes of a moment.
#[tactic(auto, unfolding(crate::specs::Updates::bytes_of))]
pub(crate) fn bytes_of(m: Moment, form: Form) -> TimeBytes
    requires { IsMoment m }
    ensures { result ≡ bytes_of form m }
{
    TimeBytes {
        sec: spelling(form.binary, m.second),
        min: spelling(form.binary, m.minute),
        hour: hour_spelling(form, m.hour),
        wday: spelling(form.binary, m.weekday),
        date: spelling(form.binary, m.date),
        month: spelling(form.binary, m.month),
        year: spelling(form.binary, m.year),
    }
}

/// The bytes after one update (data sheet, "Update cycle"). It is the plain form of `after`, update by update, for whoever
/// compares with it.
#[tactic(auto, unfolding(crate::specs::Updates::updated))]
pub fn updated(bytes: TimeBytes, form: Form) -> TimeBytes
    ensures { result ≡ updated form bytes }
{
    bytes_of(next_second(moment_of(bytes, form)), form)
}

/// The bytes after `n` updates (data sheet, "Update cycle"). Each update reads the seven bytes in `form`,
/// adds a second, and writes all seven back in that form.
///
/// Every fourth year is a leap year, 00 included. A byte that is invalid in `form` counts as its lowest
/// value: 0 for seconds, minutes, hour of the day and year, 1 for day of the week, month and date; a date
/// above the month's length is invalid (own). With no update the bytes stay as they are.
pub fn after(bytes: TimeBytes, form: Form, n: u64) -> TimeBytes
    ensures value { result ≡ updated_times form n bytes }
    ensures valid { 0 < n → IsValid form result }
    ensures kept { IsValid form bytes → IsValid form result }
    // a day of updates
    ensures day { n ≡ 86400 → IsValid form bytes → IsDayLater form bytes result }
{
    if n == 0 {
        bytes
    } else {
        bytes_of(later(moment_of(bytes, form), n), form)
    }
}
