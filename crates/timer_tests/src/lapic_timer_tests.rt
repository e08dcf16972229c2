//! The timer of a local APIC: registers by the manual's tables, and stretches against the plain program
//! of one nanosecond after the other.

use crate::checks::{holds, same};
use crate::numbers::next_number;
use clk_units::{RANGE_NS, is_khz};
use host_counter::Anchor;
use lapic_timer::{ApicField, ApicParts, ApicRegister, ApicTimer, Fires, first_reach};
use std::process::Abort;
use tsc_scale::{Tsc, ratio};

/// A timer with a divide configuration, an LVT and an initial count, written in this order.
fn timer_of(divide: u32, lvt: u32, initial: u32) -> ApicTimer {
    let mut timer = ApicTimer::power_on();
    timer.write_divide(divide);
    timer.write_lvt(lvt);
    timer.write_initial(initial);
    timer
}

/// The timer after `n` nanoseconds, and its fires.
fn after(timer: ApicTimer, n: u64) -> (ApicTimer, Fires) {
    let mut timer = timer;
    let fires = timer.run(n);
    (timer, fires)
}

/// So many fires, the first at a nanosecond.
fn fires(count: u64, first: u64) -> Fires {
    Fires {
        count,
        first: Some(first),
    }
}

#[test]
fn a_periodic_timer_of_100_nanoseconds(rt: HostRuntime) {
    let timer = timer_of(0xb, 0x2_0030, 0x64);
    same(&rt, "vector", timer.vector(), 0x30);
    holds(&rt, "not masked", !timer.is_masked());
    same(&rt, "ticks of two fires", timer.ticks(2), 2);
    let (timer, by_250) = after(timer, 250);
    same(&rt, "by 250", by_250, fires(2, 100));
    same(&rt, "current at 250", timer.current(), 0x32);
    let (_, by_300) = after(timer, 50);
    same(&rt, "by 300", by_300, fires(1, 50));
}

/// Whether a look at a TSC reaches a deadline, and the deadline after it.
fn looked_at(deadline: u64, tsc: u64) -> (bool, u64) {
    let mut timer = timer_of(0, 0x4_0031, 0);
    timer.write_deadline(deadline);
    let reached = timer.reach(tsc);
    (reached, timer.deadline())
}

/// A deadline, a TSC, whether it is reached, and the deadline after the look.
const LOOKS: [(u64, u64, bool, u64); 5] = [
    (2_001, 2_000, false, 2_001),
    (2_001, 2_002, true, 0),
    (2_001, 1, false, 2_001),
    (0xffff_ffff_ffff_ffff, 0, true, 0),
    (0, 2_002, false, 0),
];

#[test]
fn looks_at_a_deadline(rt: HostRuntime) {
    for (deadline, tsc, reached, left) in LOOKS {
        same(
            &rt,
            (deadline, tsc),
            looked_at(deadline, tsc),
            (reached, left),
        );
    }
}

#[test]
fn nothing_counts_in_deadline_mode(rt: HostRuntime) {
    let (timer, seen) = after(timer_of(0, 0x4_0031, 5), 1 << 63);
    same(&rt, "fires", seen, Fires::NONE);
    same(&rt, "initial", timer.initial(), 0);
}

/// The divisors of the manual's table, and how often a periodic timer of 5 fires in 1,000 ns.
const DIVISORS: [(u32, u64, u64); 8] = [
    (0b0000, 2, 100),
    (0b0001, 4, 50),
    (0b0010, 8, 25),
    (0b0011, 16, 12),
    (0b1000, 32, 6),
    (0b1001, 64, 3),
    (0b1010, 128, 1),
    (0b1011, 1, 200),
];

#[test]
fn periodic_fires_at_each_divisor(rt: HostRuntime) {
    for (divide, divisor, count) in DIVISORS {
        let (_, seen) = after(timer_of(divide, 0x2_0030, 5), 1_000);
        same(&rt, divisor, seen, fires(count, divisor.wrapping_mul(5)));
    }
}

#[test]
fn a_one_shot_fires_once_at_each_divisor(rt: HostRuntime) {
    for (divide, divisor, _) in DIVISORS {
        let first = divisor.wrapping_mul(5);
        let (timer, before) = after(timer_of(divide, 0x30, 5), first.wrapping_sub(1));
        same(&rt, (divisor, "before"), before, Fires::NONE);
        let (timer, last) = after(timer, 1_000);
        same(&rt, (divisor, "last"), last, fires(1, 1));
        same(&rt, (divisor, "current"), timer.current(), 0);
    }
}

#[test]
fn a_long_stretch_takes_no_time(rt: HostRuntime) {
    let (timer, seen) = after(timer_of(0xb, 0x2_0030, 1_000), 1 << 40);
    same(&rt, "2^40", seen, fires(1_099_511_627, 1_000));
    same(&rt, "current at 2^40", timer.current(), 224);
    let (_, seen) = after(timer_of(0xb, 0x2_0030, 1), u64::MAX);
    same(&rt, "all numbers", seen, fires(u64::MAX, 1));
}

/// The plain program of the definition: one nanosecond after the other.
fn run_one_by_one(parts: ApicParts, divisor: u8, n: u64) -> (ApicParts, Fires) {
    let mut parts = parts;
    let mut fires = Fires::NONE;
    for k in 0..n {
        if parts.current == 0 {
            continue;
        }
        parts.phase = parts.phase.wrapping_add(1);
        if parts.phase == divisor {
            parts.phase = 0;
            parts.current = parts.current.wrapping_sub(1);
            if parts.current == 0 {
                fires.count = fires.count.wrapping_add(1);
                fires.first = fires.first.or(Some(k.wrapping_add(1)));
                if parts.lvt / 0x2_0000 == 1 {
                    parts.current = parts.initial;
                }
            }
        }
    }
    (parts, fires)
}

/// A timer in the middle of its counts, by the bits of a number: one-shot or periodic, masked or not.
fn some_timer(divide: u32, x: u64) -> ApicTimer {
    let lvt = (x >> 60) as u32 % 4 * 0x1_0000;
    let (timer, _) = after(timer_of(divide, lvt, (x >> 50) as u32 % 9), (x >> 40) % 300);
    timer
}

#[test]
fn many_nanoseconds_are_single_ones(rt: HostRuntime) {
    let mut x: u64 = 1;
    for _ in 0..200 {
        for (divide, divisor, _) in DIVISORS {
            x = next_number(x);
            let timer = some_timer(divide, x);
            let n = (x >> 30) % 700;
            let (parts, single) = run_one_by_one(timer.parts(), divisor as u8, n);
            let (timer, seen) = after(timer, n);
            same(&rt, (parts, n), seen, single);
            same(&rt, n, timer.parts(), parts);
        }
    }
}

/// Divide configuration and LVT as written, and as read.
const WRITES: [(u32, u32, u32, u32); 4] = [
    (0xffff_fff4, 0, 0xfff9_ff20, 0x1_0020),
    (0xffff_ffff, 0xb, 0xfffd_ff21, 0x5_0021),
    (0x8, 0x8, 0x6_0022, 0x22),
    (0x3, 0x3, 0x7_0023, 0x1_0023),
];

#[test]
fn registers_keep_their_bits(rt: HostRuntime) {
    for (divide, divide_read, lvt, lvt_read) in WRITES {
        let timer = timer_of(divide, lvt, 9);
        same(&rt, divide, timer.divide(), divide_read);
        same(&rt, lvt, timer.lvt(), lvt_read);
    }
}

/// MSRs that are written, and what each then reads, in the manual's order.
const MSRS: [(u32, u64, u64); 6] = [
    (0x6e0, 7, 0),
    (0x832, 0x9_0002_0031, 0x2_0031),
    (0x83e, 0xffff_ffff_ffff_fff4, 0),
    (0x838, 0x3_0000_0009, 9),
    (0x839, 5, 9),
    (0x83e, 0xb, 0xb),
];

#[test]
fn registers_by_their_msrs(rt: HostRuntime) {
    let mut timer = ApicTimer::power_on();
    for (msr, v, read) in MSRS {
        let register = ApicRegister::of_msr(msr).expect(&rt, "an MSR of the timer");
        timer.write(register, v);
        same(&rt, register, timer.read(register), read);
    }
    same(&rt, "MSR 80Bh", ApicRegister::of_msr(0x80b), None);
}

/// Fields in the order of the record, and the first whose condition fails.
const FIELDS: [(u32, u8, u32, u32, u8, u64, Option<ApicField>); 13] = [
    (0x2_0030, 0xb, 9, 9, 0, 0, None),
    (0x4_0030, 0xb, 0, 0, 0, 7, None),
    (0x30, 0xb, 9, 0, 0, 0, None),
    (0x6_0030, 0xb, 9, 9, 0, 0, Some(ApicField::Lvt)),
    (0x2_0130, 0xb, 9, 9, 0, 0, Some(ApicField::Lvt)),
    (0x2_0030, 4, 9, 9, 0, 0, Some(ApicField::Divide)),
    (0x4_0030, 0xb, 1, 0, 0, 7, Some(ApicField::Initial)),
    (0x4_0030, 0xb, 0, 1, 0, 7, Some(ApicField::Current)),
    (0x2_0030, 0xb, 9, 10, 0, 0, Some(ApicField::Current)),
    (0x2_0030, 0xb, 9, 0, 0, 0, Some(ApicField::Current)),
    (0x2_0030, 0xb, 9, 9, 1, 0, Some(ApicField::Phase)),
    (0x30, 0, 9, 0, 1, 0, Some(ApicField::Phase)),
    (0x2_0030, 0xb, 9, 9, 0, 1, Some(ApicField::Deadline)),
];

#[test]
fn fields_that_no_timer_has(rt: HostRuntime) {
    for (lvt, divide, initial, current, phase, deadline, fault) in FIELDS {
        let parts = ApicParts {
            lvt,
            divide,
            initial,
            current,
            phase,
            deadline,
        };
        same(&rt, parts, parts.first_fault(), fault);
        let timer = ApicTimer::of_parts(parts);
        same(&rt, parts, timer.is_some(), fault.is_none());
        if let Some(timer) = timer {
            same(&rt, parts, timer.parts(), parts);
        }
    }
}

/// A guest on a host's counter: the rates in kHz, the anchor's count and time, the offset of the TSC.
#[derive(Clone, Copy, Debug, PartialEq, Eq)]
struct Clock {
    host_khz: u64,
    guest_khz: u64,
    start: u64,
    base_ns: u64,
    offset: u64,
}

impl Clock {
    fn anchor(&self) -> Anchor {
        Anchor {
            khz: self.host_khz,
            start: self.start,
            base_ns: self.base_ns,
        }
    }

    fn tsc(&self) -> Tsc {
        Tsc {
            offset: self.offset,
            adjust: 0,
        }
    }

    /// What the library answers; its conditions hold.
    fn first_reach(&self, rt: &impl Abort, deadline: u64, from: u64, to: u64) -> Option<u64> {
        let anchor = self.anchor();
        assert!(rt; is_khz(anchor.khz) && is_khz(self.guest_khz), "{self:?}");
        assert!(rt; anchor.base_ns <= from && to < RANGE_NS, "{self:?}");
        first_reach(anchor, self.guest_khz, self.tsc(), deadline, from, to)
    }

    /// The plain program: one nanosecond after the other.
    fn first_by_steps(&self, rt: &impl Abort, deadline: u64, from: u64, to: u64) -> Option<u64> {
        assert!(rt; is_khz(self.host_khz) && is_khz(self.guest_khz), "{self:?}");
        let ratio = ratio(self.guest_khz, self.host_khz);
        for t in from.saturating_add(1)..to.saturating_add(1) {
            let millionths = t.wrapping_sub(self.base_ns).wrapping_mul(self.host_khz);
            let count = self.start.wrapping_add(millionths.div_ceil(1_000_000));
            let past = self.tsc().read(count, ratio).wrapping_sub(deadline);
            if deadline != 0 && past < 1 << 63 {
                return Some(t);
            }
        }
        None
    }
}

/// Rates of host and guest in kHz, the offset of the TSC, the deadline, the stretch, and the first
/// nanosecond.
const DEADLINES: [(u64, u64, u64, u64, u64, u64, Option<u64>); 14] = [
    (1_000_000, 2_000_000, 0, 2_001, 0, 9_999, Some(1_001)),
    (1_000_000, 2_000_000, 0, 2_001, 0, 1_000, None),
    // within a nanosecond of 10 counts
    (10_000_000, 10_000_000, 0, 21, 0, 100, Some(3)),
    (10_000_000, 10_000_000, 0, 20, 0, 100, Some(2)),
    // in the past: the next nanosecond
    (1_000_000, 1_000_000, 0, 7, 500, 600, Some(501)),
    (1_000_000, 1_000_000, 0, 0, 500, 600, None),
    (1_000_000, 1_000_000, 0, 7, 500, 500, None),
    // a TSC that starts 1,000 before the modulus
    (
        1_000_000,
        1_000_000,
        0xffff_ffff_ffff_fc18,
        5,
        0,
        5_000,
        Some(1_005),
    ),
    (
        1_000_000,
        1_000_000,
        0xffff_ffff_ffff_fc18,
        0xffff_ffff_ffff_fff6,
        0,
        5_000,
        Some(990),
    ),
    (
        1_000_000,
        1_000_000,
        0xffff_ffff_ffff_fc18,
        0xffff_ffff_ffff_ffff,
        0,
        5_000,
        Some(999),
    ),
    // 2^63 past a deadline is before it
    (
        1_000_000,
        1_000_000,
        0x7fff_ffff_ffff_ffff,
        1,
        0,
        5_000,
        Some(1),
    ),
    (
        1_000_000,
        1_000_000,
        0x8000_0000_0000_0000,
        1,
        0,
        5_000,
        None,
    ),
    // the last nanosecond in range
    (
        1_000_000,
        1_000_000,
        0,
        0x7ff_ffff_ffff_ffff,
        0,
        0x7ff_ffff_ffff_ffff,
        Some(0x7ff_ffff_ffff_ffff),
    ),
    (
        1_000_000,
        1_000_000,
        0,
        0x800_0000_0000_0000,
        0,
        0x7ff_ffff_ffff_ffff,
        None,
    ),
];

#[test]
fn first_nanoseconds_of_deadlines(rt: HostRuntime) {
    for (host_khz, guest_khz, offset, deadline, from, to, first) in DEADLINES {
        let clock = Clock {
            host_khz,
            guest_khz,
            start: 0,
            base_ns: 0,
            offset,
        };
        let seen = clock.first_reach(&rt, deadline, from, to);
        same(&rt, (clock, deadline), seen, first);
    }
}

/// Rates of host and guest in kHz, and the offset of the TSC.
const RATES: [(u64, u64, u64); 8] = [
    (100_000, 10_000_000, 0),
    (100_000, 10_000_000, 0xffff_ffff_ffff_ff00),
    (10_000_000, 100_000, 0),
    (10_000_000, 100_000, 700),
    (3_000_000, 2_999_999, 0xffff_ffff_ffff_ff00),
    (3_000_000, 2_999_999, 0x8000_0000_0000_0000),
    (999_999, 1_000_001, 700),
    (999_999, 1_000_001, 0xffff_ffff_ffff_ff00),
];

#[test]
fn deadlines_by_single_nanoseconds(rt: HostRuntime) {
    let mut reached: u64 = 0;
    for (host_khz, guest_khz, offset) in RATES {
        let clock = Clock {
            host_khz,
            guest_khz,
            start: 1_000,
            base_ns: 40,
            offset,
        };
        for k in 0..60 {
            let deadline = offset.wrapping_add(k * 23);
            let first = clock.first_reach(&rt, deadline, 50, 250);
            let single = clock.first_by_steps(&rt, deadline, 50, 250);
            same(&rt, (clock, k), first, single);
            if first.is_some() {
                reached = reached.wrapping_add(1);
            }
        }
    }
    holds(&rt, reached, reached > 200);
}
