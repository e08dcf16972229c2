//! Pulses of clocks of 1,193,182 Hz, 32,768 Hz and 100 MHz, their times, and bits by their place.

use crate::checks::same;
use clk_units::{bit, bit_value, pulses_between, pulses_of, time_of_pulse};

#[test]
fn pulses_of_the_three_clocks(rt: HostRuntime) {
    let cases = [
        (1_193_182, 838, 0),
        (1_193_182, 839, 1),
        (1_193_182, 5_000, 5),
        (1_193_182, 1_000_000_000, 1_193_182),
        (32_768, 501_983_642, 16_448),
        (32_768, 501_983_643, 16_449),
        (100_000_000, 9, 0),
        (100_000_000, 10, 1),
    ];
    for (hz, ns, pulses) in cases {
        same(&rt, (hz, ns), pulses_of(ns, hz), pulses);
    }
    for (from, to, pulses) in [(838, 839, 1), (839, 1_676, 0)] {
        let seen = pulses_between(from, to, 1_193_182);
        same(&rt, (from, to), seen, pulses);
    }
}

#[test]
#[tactic(auto, unfolding(clk_units::specs::Pulses::time_of))]
fn times_of_pulses(rt: HostRuntime) {
    let cases = [
        (time_of_pulse(0, 1_193_182), 0),
        (time_of_pulse(1, 1_193_182), 839),
        (time_of_pulse(4, 1_193_182), 3_353),
        (time_of_pulse(5, 1_193_182), 4_191),
        (time_of_pulse(16_376, 32_768), 499_755_860),
        (time_of_pulse(16_449, 32_768), 501_983_643),
    ];
    for (time, ns) in cases {
        same(&rt, ns, time, ns);
    }
}

#[test]
fn bits_by_their_place(rt: HostRuntime) {
    let cases = [
        (0, 5, true),
        (1, 5, false),
        (63, u64::MAX, true),
        (64, u64::MAX, false),
    ];
    for (k, n, is_set) in cases {
        same(&rt, (k, n), bit(k, n), is_set);
    }
    same(&rt, "bit 63", bit_value(true, 63), 0x8000_0000_0000_0000);
}
