//! Registers, and stretches against the plain program of one pulse after the other.

use crate::checks::same;
use crate::numbers::next_number;
use hpet_comparator::{MainCounter, Matches, Timer, TimerParts, write_part};
use std::process::Abort;

/// Config, comparator and period; the main counter before and the number of pulses; the number and
/// the first of the matches, and the comparator after them.
const PULSES: [(u16, u64, u64, u64, u64, u64, Option<u64>, u64); 12] = [
    // a one-shot timer matches once, on the pulse that reaches the comparator
    (0x2804, 100, 100, 0, 99, 0, None, 100),
    (0x2804, 100, 100, 0, 100, 1, Some(100), 100),
    (0x2804, 100, 100, 0, 5_000, 1, Some(100), 100),
    // a periodic one each period
    (0x280c, 100, 30, 0, 99, 0, None, 100),
    (0x280c, 100, 30, 0, 190, 4, Some(100), 220),
    // a comparator that the counter equals already has a whole round before it
    (0x280c, 7, 30, 7, 5_000, 0, None, 7),
    (0x290c, 7, 30, 0x1_0000_0007, 5_000, 0, None, 7),
    // a period of 0 matches once a round
    (0x280c, 7, 0, 0, 5_000, 1, Some(7), 7),
    // 32 bits, across the wrap
    (0x290c, 0xffff_fff8, 0x10, 0xffff_fff0, 45, 3, Some(8), 0x28),
    (0x2904, 3, 3, 0x7_ffff_fffe, 10, 1, Some(5), 3),
    // 64 bits, across the wrap
    (
        0x280c,
        0xffff_ffff_ffff_fff8,
        0x10,
        0xffff_ffff_ffff_fff0,
        45,
        3,
        Some(8),
        0x28,
    ),
    (0x2804, 3, 3, 0xffff_ffff_ffff_fffe, 10, 1, Some(5), 3),
];

#[test]
fn counts_and_wraps(rt: HostRuntime) {
    let cases = [
        (0, 100, 100),
        (0xffff_ffff, 1, 0x1_0000_0000),
        (0xffff_ffff_ffff_ffff, 1, 0),
        (0xffff_ffff_ffff_fff0, 0x20, 0x10),
    ];
    for (from, n, to) in cases {
        let mut counter = MainCounter { value: from };
        counter.pulses(n);
        same(&rt, (from, n), counter.value, to);
    }
}

#[test]
fn writes_the_whole_and_each_half(rt: HostRuntime) {
    let mut counter = MainCounter {
        value: 0x1122_3344_5566_7788,
    };
    for (width, high, v, value) in [
        (4, false, 0xaabb_ccdd, 0x1122_3344_aabb_ccdd),
        (4, true, 0x0000_0007, 0x0000_0007_aabb_ccdd),
        (8, false, 0x5, 0x5),
    ] {
        counter.write(width, high, v);
        same(&rt, (width, high, v), counter.value, value);
    }
    let written = write_part(0x6, 4, true, 0xffff_ffff);
    same(&rt, "a high half", written, 0xffff_ffff_0000_0006);
}

#[test]
fn matches_over_a_stretch(rt: HostRuntime) {
    for (config, comparator, period, from, n, count, first, after) in PULSES {
        let parts = TimerParts {
            config,
            comparator,
            period,
        };
        let mut timer = Timer::of_parts(parts).expect(&rt, "a timer's parts");
        let matches = timer.pulses(from, n);
        same(&rt, (parts, from, n), matches, Matches { count, first });
        let left = (timer.comparator(), timer.parts().period);
        same(&rt, (parts, from, n), left, (after, period));
    }
}

/// A number in the timer's width: bit 8 of the configuration is 32-bit mode.
fn within(parts: &TimerParts, x: u64) -> u64 {
    if parts.config & 0x100 != 0 {
        x & 0xffff_ffff
    } else {
        x
    }
}

/// The plain program of the definition: one pulse after the other.
fn pulses_one_by_one(parts: TimerParts, from: u64, n: u64) -> (TimerParts, Matches) {
    let mut parts = parts;
    let mut matches = Matches::NONE;
    for k in 0..n {
        let counter = from.wrapping_add(k).wrapping_add(1);
        if within(&parts, counter) == parts.comparator {
            matches.count = matches.count.wrapping_add(1);
            matches.first = matches.first.or(Some(k.wrapping_add(1)));
            // bit 3 is periodic
            if parts.config & 0x8 != 0 {
                let comparator = parts.comparator.wrapping_add(parts.period);
                parts.comparator = within(&parts, comparator);
            }
        }
    }
    (parts, matches)
}

/// A timer near a main counter, so that first matches, periods and wraps fall within a short
/// stretch.
fn timer_near(from: u64, x: u64) -> Timer {
    let mut timer = Timer::power_on();
    // 32-bit mode and periodic by turns, the comparator by VAL_SET, and then the period
    timer.write_config(0x2840 | x & 0x108);
    timer.write_comparator(8, false, from.wrapping_add(x / 512 % 32));
    timer.write_comparator(8, false, x / 16_384 % 8);
    timer
}

#[test]
fn many_pulses_are_single_ones(rt: HostRuntime) {
    let mut x = 1;
    for _ in 0..400 {
        x = next_number(x);
        let from = (x >> 20) % 64;
        let n = (x >> 26) % 100;
        for from in [from, !from] {
            let mut timer = timer_near(from, x >> 33);
            let (parts, matches) = pulses_one_by_one(timer.parts(), from, n);
            same(&rt, ("from", from, n), timer.pulses(from, n), matches);
            same(&rt, ("from", from, n), timer.parts(), parts);
        }
    }
}

#[test]
fn a_long_stretch_takes_no_time(rt: HostRuntime) {
    for (from, n, count) in [(0xffff_ffff_ffff_ffff, 1 << 40, 109_951_162_778)] {
        let mut timer = Timer::power_on();
        timer.write_config(0x2808);
        timer.write_comparator(8, false, 10);
        // without VAL_SET the write leaves the comparator, and sets the period
        has(&rt, &timer, 0, 10);
        let matches = Matches {
            count,
            first: Some(1),
        };
        same(&rt, (from, n), timer.pulses(from, n), matches);
    }
}

/// A write of a configuration makes the register read so.
fn config_reads(rt: &impl Abort, timer: &mut Timer, written: u64, read: u64) {
    timer.write_config(written);
    same(rt, written, timer.config(), read);
}

/// The timer has this comparator and period.
fn has(rt: &impl Abort, timer: &Timer, comparator: u64, period: u64) {
    let seen = (timer.comparator(), timer.parts().period);
    same(rt, "comparator and period", seen, (comparator, period));
}

#[test]
fn registers_of_a_timer(rt: HostRuntime) {
    let mut timer = Timer::power_on();
    same(&rt, "power on", timer.config(), 0x00f0_0000_0000_2830);
    // VAL_SET reads as set until the next write of the comparator
    config_reads(&rt, &mut timer, 0x294c, 0x00f0_0000_0000_297c);
    timer.write_comparator(8, false, 0xffff_fff8);
    same(
        &rt,
        "without VAL_SET",
        timer.config(),
        0x00f0_0000_0000_293c,
    );
    timer.write_comparator(8, false, 0x10);
    has(&rt, &timer, 0xffff_fff8, 0x10);
    // a route outside 20 to 23 leaves the route, one inside is taken
    config_reads(&rt, &mut timer, 0x0000, 0x00f0_0000_0000_2830);
    config_reads(&rt, &mut timer, 0x2e00, 0x00f0_0000_0000_2e30);
    // halves, and the cut of 32-bit mode
    timer.write_comparator(4, true, 0x5);
    has(&rt, &timer, 0x5_ffff_fff8, 0x5_0000_0010);
    timer.write_config(0x2f00);
    same(&rt, "32-bit mode", timer.comparator(), 0xffff_fff8);
    timer.write_comparator(4, true, 0x5);
    timer.write_comparator(4, false, 0x6);
    let parts = TimerParts {
        config: 0x2f00,
        comparator: 6,
        period: 6,
    };
    same(&rt, "halves in 32-bit mode", timer.parts(), parts);
}

#[test]
fn what_a_configuration_says(rt: HostRuntime) {
    let parts = TimerParts {
        config: 0x2f4e,
        comparator: 0,
        period: 6,
    };
    for (parts, on) in [(parts, true), (Timer::power_on().parts(), false)] {
        same(&rt, ("level", on), parts.is_level(), on);
        same(&rt, ("enabled", on), parts.is_enabled(), on);
        same(&rt, ("periodic", on), parts.is_periodic(), on);
        same(&rt, ("VAL_SET", on), parts.takes_comparator(), on);
        same(&rt, ("32-bit mode", on), parts.is_32_bit(), on);
    }
    same(&rt, "route", parts.route(), 23);
    same(&rt, "spacing", parts.spacing(), 6);
    let one_shot = Timer::power_on().parts();
    let round = 0x1_0000_0000_0000_0000;
    same(&rt, "one-shot", one_shot.spacing(), round);
}

#[test]
fn fields_that_are_no_timers(rt: HostRuntime) {
    for (config, comparator, period) in [
        (0x0000, 0, 0),
        (0x2600, 0, 0),
        (0x3000, 0, 0),
        (0x2801, 0, 0),
        (0x6800, 0, 0),
        (0x2900, 0x1_0000_0000, 0),
        (0x2900, 0, 0x1_0000_0000),
    ] {
        let parts = TimerParts {
            config,
            comparator,
            period,
        };
        same(&rt, parts, Timer::of_parts(parts), None);
    }
}
