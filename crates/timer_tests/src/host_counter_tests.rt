//! Times of counts, at both ends of the range of rates and of times, and counts that have none.

use crate::checks::same;
use clk_units::{KHZ_MAX, KHZ_MIN, RANGE_NS, is_khz};
use host_counter::{Anchor, TimeFault};
use std::process::Abort;

/// The time of a count by an anchor.
fn time(rt: &impl Abort, anchor: Anchor, h: u64) -> Result<u64, TimeFault> {
    assert!(rt; is_khz(anchor.khz), "{anchor:?}");
    anchor.time(h)
}

/// An anchor: its rate, count and time.
fn anchor(khz: u64, start: u64, base_ns: u64) -> Anchor {
    Anchor {
        khz,
        start,
        base_ns,
    }
}

#[test]
fn times_at_both_ends_of_the_rate(rt: HostRuntime) {
    let slowest = anchor(KHZ_MIN, 0, 0);
    let fastest = anchor(KHZ_MAX, u64::MAX - 10, 5);
    let moved = anchor(3_000_000, 500, 1_000_002_000);
    let cases = [
        (slowest, 1, 10),
        (fastest, u64::MAX - 1, 5),
        (fastest, u64::MAX, 6),
        (moved, 3_500, 1_000_003_000),
    ];
    for (anchor, h, ns) in cases {
        same(&rt, (anchor, h), time(&rt, anchor, h), Ok(ns));
    }
}

#[test]
fn counts_without_a_time(rt: HostRuntime) {
    let plain = anchor(1_000_000, 0, 0);
    let late = anchor(KHZ_MIN, 1, u64::MAX);
    let longest = anchor(KHZ_MIN, 0, u64::MAX);
    let past = TimeFault::OutOfRange {
        ns: RANGE_NS as u128,
    };
    let longest_past = TimeFault::OutOfRange {
        ns: 202_914_184_810_805_067_765,
    };
    let cases = [
        (plain, RANGE_NS - 1, Ok(RANGE_NS - 1)),
        (plain, RANGE_NS, Err(past)),
        (late, 0, Err(TimeFault::BeforeStart { start: 1 })),
        (longest, u64::MAX, Err(longest_past)),
    ];
    for (anchor, h, wanted) in cases {
        same(&rt, (anchor, h), time(&rt, anchor, h), wanted);
    }
}

#[test]
#[tactic(auto, unfolding(host_counter::specs::Time::time_at))]
fn the_time_of_a_count_that_has_one(rt: HostRuntime) {
    let moved = Anchor {
        khz: 3_000_000,
        start: 500,
        base_ns: 1_000,
    };
    same(&rt, moved, moved.time_of(3_500), 2_000);
}
