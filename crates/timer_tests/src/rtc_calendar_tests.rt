//! Times worked out by hand from the Motorola MC146818 data sheet, "Time, calendar, and alarm locations" and "Update
//! cycle"; and many updates at once against the plain program of one after the other.

ghost use Rattle.std.specs.Prelude.{◌+◌, ◌*◌, ◌<◌, ◌≤◌};

use crate::checks::same;
use crate::numbers::next_number;
use rtc_calendar::{Alarm, Form, TimeBytes, after, first_match, let_pass, matches, updated};
use std::process::Abort;

/// Binary numbers, 24 hours.
const BINARY: Form = Form {
    binary: true,
    hours24: true,
};

/// BCD, 24 hours, as the PC's firmware sets the clock.
const BCD: Form = Form {
    binary: false,
    hours24: true,
};

/// Binary numbers, 12 hours.
const BINARY_12: Form = Form {
    binary: true,
    hours24: false,
};

/// BCD, 12 hours.
const BCD_12: Form = Form {
    binary: false,
    hours24: false,
};

/// The bytes in the order of the registers: seconds, minutes, hours, day of the week, date, month, year.
fn time(bytes: [u8; 7]) -> TimeBytes {
    let [sec, min, hour, wday, date, month, year] = bytes;
    TimeBytes {
        sec,
        min,
        hour,
        wday,
        date,
        month,
        year,
    }
}

/// The same, as two hexadecimal digits for each.
fn spelt(digits: u64) -> TimeBytes {
    let [_, sec, min, hour, wday, date, month, year] = digits.to_be_bytes();
    time([sec, min, hour, wday, date, month, year])
}

/// One update takes a time from `before` to `then`, and none leaves it.
fn updates_once(rt: &impl Abort, form: Form, before: TimeBytes, then: TimeBytes) {
    same(rt, (form, before), after(before, form, 1), then);
    same(rt, "no update", after(before, form, 0), before);
}

#[test]
fn one_update_carries_to_the_year(rt: HostRuntime) {
    let binary = [
        (BINARY, [59, 59, 23, 7, 31, 12, 99], [0, 0, 0, 1, 1, 1, 0]),
        (BINARY_12, [59, 59, 11, 3, 5, 6, 7], [0, 0, 140, 3, 5, 6, 7]),
        (BINARY_12, [59, 59, 12, 3, 5, 6, 7], [0, 0, 1, 3, 5, 6, 7]),
    ];
    for (form, before, then) in binary {
        updates_once(&rt, form, time(before), time(then));
    }
    let bcd = [
        (BCD, 0x59_59_23_07_31_12_99, 0x00_00_00_01_01_01_00),
        (BCD_12, 0x59_59_91_07_31_12_99, 0x00_00_12_01_01_01_00),
        (BCD_12, 0x59_59_92_03_05_06_07, 0x00_00_81_03_05_06_07),
        (BCD, 0x09_59_19_03_05_06_07, 0x10_59_19_03_05_06_07),
        (BCD, 0x59_09_19_03_05_06_07, 0x00_10_19_03_05_06_07),
        (BCD, 0x59_59_19_03_05_06_07, 0x00_00_20_03_05_06_07),
    ];
    for (form, before, then) in bcd {
        updates_once(&rt, form, spelt(before), spelt(then));
    }
}

#[test]
fn every_fourth_year_has_a_leap_day(rt: HostRuntime) {
    let cases = [
        ([0, 0, 0, 1, 28, 2, 0], [0, 0, 0, 2, 29, 2, 0]),
        ([0, 0, 0, 1, 28, 2, 4], [0, 0, 0, 2, 29, 2, 4]),
        ([0, 0, 0, 1, 28, 2, 99], [0, 0, 0, 2, 1, 3, 99]),
        ([0, 0, 0, 1, 29, 2, 96], [0, 0, 0, 2, 1, 3, 96]),
        ([0, 0, 0, 7, 30, 4, 50], [0, 0, 0, 1, 1, 5, 50]),
    ];
    for (before, then) in cases {
        let day_later = after(time(before), BINARY, 86_400);
        same(&rt, before, day_later, time(then));
    }
}

#[test]
fn invalid_bytes_count_as_their_lowest_value(rt: HostRuntime) {
    let binary = [
        (BINARY, [60, 60, 24, 8, 32, 13, 100], [1, 0, 0, 1, 1, 1, 0]),
        (BINARY, [255, 255, 255, 0, 0, 0, 255], [1, 0, 0, 1, 1, 1, 0]),
        (
            BINARY_12,
            [58, 59, 13, 7, 29, 2, 99],
            [59, 59, 12, 7, 1, 2, 99],
        ),
        (
            BINARY_12,
            [58, 59, 128, 7, 31, 4, 99],
            [59, 59, 12, 7, 1, 4, 99],
        ),
    ];
    for (form, before, then) in binary {
        updates_once(&rt, form, time(before), time(then));
    }
    let bcd = [
        (BCD, 0x5a_60_24_08_1a_13_a0, 0x01_00_00_01_01_01_00),
        (BCD, 0x0f_ff_1a_00_32_0a_9a, 0x01_00_00_01_01_01_00),
        (BCD_12, 0x58_59_93_07_29_02_04, 0x59_59_12_07_29_02_04),
        (BCD_12, 0x58_59_0a_07_30_02_04, 0x59_59_12_07_01_02_04),
    ];
    for (form, before, then) in bcd {
        updates_once(&rt, form, spelt(before), spelt(then));
    }
}

/// An alarm at these seconds, minutes and hours.
fn alarm(bytes: [u8; 3]) -> Alarm {
    let [sec, min, hour] = bytes;
    Alarm { sec, min, hour }
}

#[test]
fn the_alarm_matches(rt: HostRuntime) {
    let midnight = time([0, 0, 0, 1, 1, 1, 0]);
    let searches = [
        ([0xc0, 0xc0, 5], 20_000, Some(18_000)),
        ([0xc0, 0xc0, 5], 17_999, None),
        ([60, 0xc0, 0xc0], 200_000, None),
        ([0, 0, 0], 86_400, Some(86_400)),
        ([0, 0, 0], 86_399, None),
    ];
    for (bytes, n, first) in searches {
        let matched = first_match(midnight, BINARY, alarm(bytes), n);
        same(&rt, (bytes, n), matched, first);
    }
    let at_midnight = [
        ([0, 0, 0], true),
        ([0xff, 0xc0, 0], true),
        ([0, 0xbf, 0], false),
        ([0, 0, 1], false),
    ];
    for (bytes, matched) in at_midnight {
        same(&rt, bytes, matches(midnight, alarm(bytes)), matched);
    }
}

/// The plain programs that the definitions describe, which go from update to update.
fn after_each(bytes: TimeBytes, form: Form, n: u64) -> TimeBytes {
    let mut current = bytes;
    for _ in 0..n {
        current = updated(current, form);
    }
    current
}

fn first_of_each(bytes: TimeBytes, form: Form, alarm: Alarm, n: u64) -> Option<u64> {
    let mut current = bytes;
    for done in 0..n {
        current = updated(current, form);
        if matches(current, alarm) {
            return Some(done + 1);
        }
    }
    None
}

/// Numbers that look random, and are the same in each run.
#[derive(Drop)]
struct Numbers {
    state: u64,
}

impl Numbers {
    fn below(&mut self, limit: u8) -> u8
        requires { 0 < limit }
        ensures { result < limit }
    {
        self.state = next_number(self.state);
        (self.state / 65_536 % limit as u64) as u8
    }

    /// A byte that spells one of `some` numbers from `low` on.
    fn byte(&mut self, form: Form, low: u8, some: u8) -> u8
        requires some { 0 < some }
        requires digits { low + some ≤ 101 }
        ensures { result < 2 * (low + some) }
    {
        let number = low + self.below(some);
        if form.binary {
            number
        } else {
            number / 10 * 16 + number % 10
        }
    }

    fn form(&mut self) -> Form {
        Form {
            binary: self.below(2) == 0,
            hours24: self.below(2) == 0,
        }
    }

    /// Bytes that are mostly valid, late in a day and often late in a month.
    fn time(&mut self, form: Form) -> TimeBytes {
        TimeBytes {
            sec: self.byte(form, 0, 61),
            min: self.byte(form, 0, 61),
            hour: if form.hours24 {
                self.byte(form, 20, 5)
            } else {
                self.byte(form, 8, 6) + 128 * self.below(2)
            },
            wday: self.byte(form, 0, 9),
            date: if self.below(2) == 0 {
                self.byte(form, 27, 6)
            } else {
                self.byte(form, 0, 33)
            },
            month: self.byte(form, 0, 14),
            year: self.byte(form, 0, 101),
        }
    }

    /// An alarm that often leaves a byte open.
    fn alarm(&mut self, form: Form) -> Alarm {
        Alarm {
            sec: if self.below(4) == 0 {
                0xc0
            } else {
                self.byte(form, 0, 61)
            },
            min: if self.below(2) == 0 {
                0xc0
            } else {
                self.byte(form, 0, 61)
            },
            hour: if self.below(2) == 0 {
                0xff
            } else {
                self.byte(form, 0, 25)
            },
        }
    }
}

#[test]
fn days_at_once_are_their_updates(rt: HostRuntime) {
    let mut numbers = Numbers { state: 1984 };
    for _ in 0..250 {
        let form = numbers.form();
        let bytes = numbers.time(form);
        let n = numbers.below(100) as u64 * 121 + numbers.below(60) as u64;
        let row = (bytes, form, n);
        let then = after_each(bytes, form, n);
        same(&rt, row, after(bytes, form, n), then);
        let alarm = numbers.alarm(form);
        let first = first_of_each(bytes, form, alarm, n);
        let row = (row, alarm);
        same(&rt, row, first_match(bytes, form, alarm, n), first);
        let elapsed = let_pass(bytes, form, alarm, n);
        same(&rt, row, elapsed.bytes, then);
        same(&rt, row, elapsed.matched, first);
    }
}

#[test]
fn years_go_by_at_once(rt: HostRuntime) {
    let new_century = time([0, 0, 0, 1, 1, 1, 0]);
    let cases = [
        (BCD, 315_360_000, [0, 0, 0, 4, 0x29, 0x12, 0x09]),
        (BINARY, 365 * 86_400, [0, 0, 0, 2, 31, 12, 0]),
        (BINARY, 366 * 86_400, [0, 0, 0, 3, 1, 1, 1]),
        (BINARY, 1_460 * 86_400, [0, 0, 0, 5, 31, 12, 3]),
        (BINARY, 1_461 * 86_400, [0, 0, 0, 6, 1, 1, 4]),
        (BINARY, 1_520 * 86_400, [0, 0, 0, 2, 29, 2, 4]),
        (BINARY, 36_525 * 86_400 - 1, [59, 59, 23, 6, 31, 12, 99]),
        (BINARY, 36_525 * 86_400, [0, 0, 0, 7, 1, 1, 0]),
    ];
    for (form, n, then) in cases {
        same(&rt, n, after(new_century, form, n), time(then));
    }
    // an alarm that a day of updates doesn't match never does
    let never = alarm([0xc0, 60, 0xc0]);
    for n in [86_400, 1 << 40] {
        same(&rt, n, first_match(new_century, BINARY, never, n), None);
    }
}
