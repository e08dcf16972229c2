//! Messages of blocks that are programmed as a guest does it, with times worked out by hand: the main counter has a pulse
//! each 10 ns.

use crate::checks::same;
use hpet_bursts::bursts_in;
use hpet_comparator::Matches;
use hpet_registers::Hpet;
use irq_edges::{Burst, BurstList};
use std::process::Abort;

/// ENABLE of the whole block, and with legacy replacement.
const RUNS: u64 = 1;

const RUNS_LEGACY: u64 = 3;

/// Configurations of a timer on line 20: bit 14 messages, 6 VAL_SET, 3 periodic, 2 enabled,
/// 1 level.
const PERIODIC: u64 = 0x684c;

const ONE_SHOT: u64 = 0x6804;

const PERIODIC_LEVEL: u64 = 0x684e;

const PERIODIC_OFF: u64 = 0x6848;

const PERIODIC_TICKS: u64 = 0x284c;

/// A timer, its configuration, its comparator and its message register.
type Programmed = (u16, u64, u64, u64);

/// A block of eight timers that runs from 0 on, with these programmed.
fn block(rt: &impl Abort, programmed: &[Programmed], config: u64) -> Hpet {
    let mut hpet = Hpet::power_on(8, true);
    for &(timer, bits, comparator, message) in programmed {
        assert!(rt; timer < 8 && bits < 0x1_0000_0000, "timer {timer}");
        let place = 0x100 + 0x20 * timer;
        hpet.write(place, 4, bits);
        hpet.write(place + 8, 8, comparator);
        hpet.write(place + 0x10, 8, message);
    }
    assert!(rt; config < 4);
    hpet.write(0x10, 4, config);
    hpet
}

/// What a stretch sends.
fn sent(hpet: &Hpet, from: u64, to: u64) -> BurstList {
    let mut bursts = BurstList::new();
    if from <= to && to < 1 << 59 {
        bursts_in(hpet, from, to, &mut bursts);
    }
    bursts
}

/// A stretch sends these.
fn sends(rt: &impl Abort, hpet: &Hpet, from: u64, to: u64, wanted: &[Burst]) {
    same(rt, (from, to), sent(hpet, from, to).as_slice(), wanted);
}

/// A timer that matches each microsecond, and one once at 250 ns: in order of timers, not of times.
#[test]
fn periodic_and_one_shot(rt: HostRuntime) {
    let programmed = [
        (2, PERIODIC, 100, 0xfee0_0000_0000_0031),
        (5, ONE_SHOT, 25, 0xfee0_1000_0000_4032),
    ];
    let hpet = block(&rt, &programmed, RUNS);
    let wanted = [
        Burst {
            timer: 2,
            first: 1_000,
            count: 5,
            every: 1_000,
            address: 0xfee0_0000,
            data: 0x31,
        },
        Burst {
            timer: 5,
            first: 250,
            count: 1,
            every: 0,
            address: 0xfee0_1000,
            data: 0x4032,
        },
    ];
    sends(&rt, &hpet, 0, 5_000, &wanted);
    // up to a nanosecond before the first, and at it alone
    sends(&rt, &hpet, 0, 249, &[]);
    sends(&rt, &hpet, 0, 250, &wanted[1..]);
}

/// A stretch that begins where another ended goes on, from the block as it was left.
#[test]
fn goes_on_after_a_stretch(rt: HostRuntime) {
    let mut hpet = block(&rt, &[(7, PERIODIC, 100, 0xfee0_0000_0000_0031)], RUNS);
    let mut matches = [Matches::NONE; 8];
    let _reach = hpet.pulses(250, &mut matches);
    sends(&rt, &hpet, 2_505, 2_999, &[]);
    let one = Burst {
        timer: 7,
        first: 3_000,
        count: 1,
        every: 0,
        address: 0xfee0_0000,
        data: 0x31,
    };
    sends(&rt, &hpet, 2_505, 3_999, &[one]);
    let two = Burst {
        count: 2,
        every: 1_000,
        ..one
    };
    sends(&rt, &hpet, 2_505, 4_000, &[two]);
}

/// Of level type, with the interrupt off, without bit 14, and while the counter is halted.
#[test]
fn who_sends_none(rt: HostRuntime) {
    let message = 0xfee0_0000_0000_0031;
    let silent = [
        (0, PERIODIC_LEVEL, 10, message),
        (1, PERIODIC_OFF, 10, message),
        (2, PERIODIC_TICKS, 10, message),
    ];
    sends(&rt, &block(&rt, &silent, RUNS), 0, 1_000_000, &[]);
    let standing = block(&rt, &[(3, PERIODIC, 10, message)], 0);
    sends(&rt, &standing, 0, 1_000_000, &[]);
}

/// One message of a timer, after a microsecond.
fn one_of(timer: u8, data: u32) -> Burst {
    Burst {
        timer,
        first: 1_000,
        count: 1,
        every: 0,
        address: 0,
        data,
    }
}

/// Under legacy replacement timers 0 and 1 drive lines 0 and 8 in the place of messages.
#[test]
fn legacy_replacement_takes_two(rt: HostRuntime) {
    let programmed = [
        (0, PERIODIC, 100, 0x30),
        (1, PERIODIC, 100, 0x31),
        (2, PERIODIC, 100, 0x32),
    ];
    let wanted = [one_of(0, 0x30), one_of(1, 0x31), one_of(2, 0x32)];
    sends(&rt, &block(&rt, &programmed, RUNS), 0, 1_000, &wanted);
    let legacy = block(&rt, &programmed, RUNS_LEGACY);
    sends(&rt, &legacy, 0, 1_000, &wanted[2..]);
}

/// Ten years of a message each 10 ns, by all eight timers.
#[test]
fn as_many_as_the_range_takes(rt: HostRuntime) {
    let programmed = [
        (0, PERIODIC, 1, 0),
        (1, PERIODIC, 1, 1),
        (2, PERIODIC, 1, 2),
        (3, PERIODIC, 1, 3),
        (4, PERIODIC, 1, 4),
        (5, PERIODIC, 1, 5),
        (6, PERIODIC, 1, 6),
        (7, PERIODIC, 1, 7),
    ];
    let bursts = sent(&block(&rt, &programmed, RUNS), 0, 315_360_000_000_000_000);
    same(&rt, "bursts", bursts.len(), 8);
    for (k, burst) in bursts.as_slice().iter().enumerate() {
        let timer_and_data = (burst.timer as usize, burst.data as usize);
        same(&rt, k, timer_and_data, (k, k));
        let times = (burst.first, burst.count, burst.every);
        same(&rt, k, times, (10, 31_536_000_000_000_000, 10));
    }
}
