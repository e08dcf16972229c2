//! Counts and levels worked out by hand from the timing diagrams of the Intel 8254 data sheet,
//! "Mode Definitions".

use crate::checks::{holds, same};
use crate::numbers::next_number;
use pit_counter::{Counter, CounterParts, Rises, pulsed};
use std::process::Abort;

/// OUT high and low.
const H: bool = true;

const L: bool = false;

/// Where it is from, the mode, the number system and the low byte of the count, and then the count and the level of OUT
/// after each pulse.
type Diagram = (&'static str, u8, bool, u8, [u16; 7], [bool; 7]);

/// Where it is from, the mode and the low byte of a binary count, and then the counts of two pulses with GATE low and of
/// three with GATE high, and the levels of OUT.
type LowGate = (&'static str, u8, u8, [u16; 2], [u16; 3], [bool; 5]);

/// A counter with GATE high, in this mode and number system, with the low byte of a count written.
fn programmed(mode: u8, bcd: bool, low: u8) -> Counter {
    let mut counter = Counter::power_on(true);
    counter.control(0x10 + mode % 8 * 2 + u8::from(bcd));
    counter.write_byte(low);
    counter
}

/// A rise of GATE.
fn trigger(counter: &mut Counter) {
    counter.gate(false);
    counter.gate(true);
}

/// The same, and in modes 1 and 5 with the trigger that they start at.
fn started(mode: u8, bcd: bool, low: u8) -> Counter {
    let mut counter = programmed(mode, bcd, low);
    if mode == 1 || mode == 5 {
        trigger(&mut counter);
    }
    counter
}

/// Takes a pulse for each of these counts and levels, and compares them.
fn expect(rt: &impl Abort, name: &str, counter: &mut Counter, counts: &[u16], levels: &[bool]) {
    for (count, level) in counts.iter().zip(levels.iter()) {
        counter.pulses(1);
        same(rt, name, (counter.count(), counter.out()), (*count, *level));
    }
}

/// Counters go as these diagrams show them.
fn expect_diagrams(rt: &impl Abort, diagrams: &[Diagram]) {
    for (name, mode, bcd, low, counts, levels) in diagrams {
        let mut counter = started(*mode, *bcd, *low);
        expect(rt, name, &mut counter, counts, levels);
    }
}

/// Takes two pulses; then GATE is low for two, and high for three.
fn expect_around_low_gate(rt: &impl Abort, diagram: LowGate) {
    let (name, mode, low, while_low, while_high, levels) = diagram;
    let mut counter = started(mode, false, low);
    counter.pulses(2);
    counter.gate(false);
    expect(rt, name, &mut counter, &while_low, &levels[..2]);
    counter.gate(true);
    expect(rt, name, &mut counter, &while_high, &levels[2..]);
}

#[test]
fn mode_0_ends_at_its_count(rt: HostRuntime) {
    let diagrams = [
        (
            "figure 15, mode 0",
            0,
            false,
            4,
            [4, 3, 2, 1, 0, 0xffff, 0xfffe],
            [L, L, L, L, H, H, H],
        ),
        (
            "mode 0 in BCD",
            0,
            true,
            4,
            [4, 3, 2, 1, 0, 0x9999, 0x9998],
            [L, L, L, L, H, H, H],
        ),
    ];
    expect_diagrams(&rt, &diagrams);
    expect_around_low_gate(
        &rt,
        (
            "figure 15, mode 0, GATE low",
            0,
            3,
            [2, 2],
            [1, 0, 0xffff],
            [L, L, L, H, H],
        ),
    );
}

#[test]
fn mode_1_is_low_for_its_count(rt: HostRuntime) {
    let diagrams = [
        (
            "figure 16, mode 1",
            1,
            false,
            3,
            [3, 2, 1, 0, 0xffff, 0xfffe, 0xfffd],
            [L, L, L, H, H, H, H],
        ),
        (
            "mode 1 in BCD",
            1,
            true,
            3,
            [3, 2, 1, 0, 0x9999, 0x9998, 0x9997],
            [L, L, L, H, H, H, H],
        ),
    ];
    expect_diagrams(&rt, &diagrams);
    expect_around_low_gate(
        &rt,
        (
            "figure 16, mode 1, GATE low",
            1,
            3,
            [1, 0],
            [3, 2, 1],
            [L, H, L, L, L],
        ),
    );
}

#[test]
fn mode_2_divides_by_its_count(rt: HostRuntime) {
    let diagrams = [
        (
            "figure 17, mode 2",
            2,
            false,
            3,
            [3, 2, 1, 3, 2, 1, 3],
            [H, H, L, H, H, L, H],
        ),
        (
            "mode 2 in BCD",
            6,
            true,
            0x11,
            [0x11, 0x10, 9, 8, 7, 6, 5],
            [H, H, H, H, H, H, H],
        ),
    ];
    expect_diagrams(&rt, &diagrams);
    expect_around_low_gate(
        &rt,
        (
            "figure 17, mode 2, GATE low",
            2,
            3,
            [2, 2],
            [3, 2, 1],
            [H, H, H, H, L],
        ),
    );
}

#[test]
fn mode_3_is_a_square_wave(rt: HostRuntime) {
    let diagrams = [
        (
            "figure 18, mode 3",
            3,
            false,
            4,
            [4, 2, 4, 2, 4, 2, 4],
            [H, H, L, L, H, H, L],
        ),
        (
            "mode 3, odd",
            7,
            false,
            5,
            [4, 2, 0, 4, 2, 4, 2],
            [H, H, H, L, L, H, H],
        ),
        (
            "mode 3 in BCD",
            3,
            true,
            0x12,
            [0x12, 0x10, 8, 6, 4, 2, 0x12],
            [H, H, H, H, H, H, L],
        ),
    ];
    expect_diagrams(&rt, &diagrams);
    expect_around_low_gate(
        &rt,
        (
            "figure 18, mode 3, GATE low",
            3,
            4,
            [2, 2],
            [4, 2, 4],
            [H, H, H, H, L],
        ),
    );
}

#[test]
fn mode_4_strobes_at_its_count(rt: HostRuntime) {
    let diagrams = [
        (
            "figure 19, mode 4",
            4,
            false,
            3,
            [3, 2, 1, 0, 0xffff, 0xfffe, 0xfffd],
            [H, H, H, L, H, H, H],
        ),
        (
            "mode 4 in BCD",
            4,
            true,
            3,
            [3, 2, 1, 0, 0x9999, 0x9998, 0x9997],
            [H, H, H, L, H, H, H],
        ),
    ];
    expect_diagrams(&rt, &diagrams);
    expect_around_low_gate(
        &rt,
        (
            "figure 19, mode 4, GATE low",
            4,
            3,
            [2, 2],
            [1, 0, 0xffff],
            [H, H, H, L, H],
        ),
    );
}

#[test]
fn mode_5_strobes_after_a_trigger(rt: HostRuntime) {
    let diagrams = [
        (
            "figure 20, mode 5",
            5,
            false,
            3,
            [3, 2, 1, 0, 0xffff, 0xfffe, 0xfffd],
            [H, H, H, L, H, H, H],
        ),
        (
            "mode 5 in BCD",
            5,
            true,
            3,
            [3, 2, 1, 0, 0x9999, 0x9998, 0x9997],
            [H, H, H, L, H, H, H],
        ),
    ];
    expect_diagrams(&rt, &diagrams);
    expect_around_low_gate(
        &rt,
        (
            "figure 20, mode 5, GATE low",
            5,
            3,
            [1, 0],
            [3, 2, 1],
            [H, L, H, H, H],
        ),
    );
}

#[test]
fn gate_low_sets_a_low_out_in_modes_2_and_3(rt: HostRuntime) {
    for (mode, low) in [(2, 3), (3, 4)] {
        let mut counter = programmed(mode, false, low);
        counter.pulses(3);
        let rose = !counter.out() && counter.gate(false) && counter.out();
        holds(&rt, ("GATE's fall in mode", mode), rose);
    }
}

#[test]
fn counts_written_while_counting(rt: HostRuntime) {
    let cases = [
        (
            "figure 15, mode 0",
            0,
            3,
            2,
            [2, 1, 0, 0xffff],
            [L, L, H, H],
        ),
        ("figure 17, mode 2", 2, 4, 5, [1, 5, 4, 3], [L, H, H, H]),
        ("figure 18, mode 3", 3, 4, 6, [2, 6, 4, 2], [L, H, H, H]),
        (
            "figure 19, mode 4",
            4,
            3,
            2,
            [2, 1, 0, 0xffff],
            [H, H, L, H],
        ),
    ];
    for (name, mode, low, next, counts, levels) in cases {
        let mut counter = programmed(mode, false, low);
        counter.pulses(3);
        counter.write_byte(next);
        expect(&rt, name, &mut counter, &counts, &levels);
    }
}

#[test]
fn two_bytes_of_mode_0_written_while_counting(rt: HostRuntime) {
    // The first stops the count and sets OUT low, the second loads.
    let mut counter = Counter::power_on(true);
    counter.control(0x30);
    counter.write_byte(2);
    counter.write_byte(0);
    counter.pulses(3);
    holds(
        &rt,
        "the end of the count",
        counter.out() && !counter.null(),
    );
    counter.write_byte(5);
    holds(&rt, "OUT after the first byte", !counter.out());
    counter.pulses(2);
    same(&rt, "after the first byte", counter.count(), 0);
    counter.write_byte(1);
    counter.pulses(1);
    same(&rt, "after the second byte", counter.count(), 0x105);
}

#[test]
fn the_greatest_count_and_the_least(rt: HostRuntime) {
    for (bits, low, high, count, first) in [
        (0x34, 0, 0, 1, 65_537),
        (0x35, 0, 0, 6, 10_001),
        (0x34, 1, 0, 34_999, 3),
        (0x35, 0x9a, 0x99, 6, 10_001),
    ] {
        let mut counter = Counter::power_on(true);
        counter.control(bits % 16 + 0x30);
        counter.write_byte(low);
        counter.write_byte(high);
        let first = Some(first);
        same(
            &rt,
            (bits, low, high),
            counter.pulses(70_000),
            Rises { count, first },
        );
    }
}

/// The plain program of the definition: one pulse after the other.
fn pulses_one_by_one(parts: CounterParts, n: u64) -> (CounterParts, Rises) {
    let mut parts = parts;
    let mut rises = Rises {
        count: 0,
        first: None,
    };
    for done in 0..n {
        let next = pulsed(parts);
        if !parts.out && next.out {
            rises.count = rises.count.wrapping_add(1);
            rises.first = rises.first.or(Some(done.wrapping_add(1)));
        }
        parts = next;
    }
    (parts, rises)
}

/// Does to a counter what the bits of a number say: a control word and a small count, any control
/// word, a byte of a count, a trigger, or GATE low.
fn change(counter: &mut Counter, x: u64) {
    let bits = x / 131_072;
    let small = (x / 8 % 256 / (x / 2_048 % 64 + 1)) as u8;
    match x % 8 {
        0 | 1 => {
            counter.control(16 + (bits % 16) as u8);
            counter.write_byte(small);
        }
        2 => {
            counter.control(16 + (bits % 48) as u8);
        }
        3 | 4 => counter.write_byte(small),
        5 | 6 => trigger(counter),
        _ => {
            counter.gate(false);
        }
    }
}

/// A stretch by the bits of a number: some pulses, or about a whole round of the count.
fn stretch(x: u64) -> u64 {
    if x % 16 == 0 {
        65_530 + x / 16 % 16
    } else {
        x / 16 % 64
    }
}

#[test]
fn many_pulses_are_single_ones(rt: HostRuntime) {
    let mut x = 8254;
    let mut counter = Counter::power_on(true);
    let mut rising: u32 = 0;
    for _ in 0..2_000 {
        x = next_number(x);
        change(&mut counter, x >> 32);
        let n = stretch(x >> 16);
        let before = counter.parts();
        let (parts, rises) = pulses_one_by_one(before, n);
        same(&rt, (n, before), counter.pulses(n), rises);
        same(&rt, (n, before), counter.parts(), parts);
        rising = rising.saturating_add(u32::from(rises.count > 1));
    }
    holds(&rt, ("stretches with rises", rising), rising > 200);
}

#[test]
fn a_long_stretch_takes_no_time(rt: HostRuntime) {
    for (n, count) in [(1 << 40, 274_877_906_943)] {
        let mut counter = programmed(2, false, 4);
        let rises = Rises {
            count,
            first: Some(5),
        };
        same(&rt, ("mode 2", n), counter.pulses(n), rises);
    }
}

#[test]
fn reads_and_control_words_in_the_middle(rt: HostRuntime) {
    let mut counter = Counter::power_on(true);
    let rose = counter.control(0x34);
    holds(&rt, "a control word", !rose && counter.null());
    counter.write_byte(0x34);
    counter.control(0x34);
    counter.write_byte(0x56);
    counter.write_byte(0x12);
    counter.pulses(1);
    same(&rt, "the half-written count is gone", counter.read(), 0x56);
    counter.latch_count();
    counter.pulses(0x100);
    counter.latch_count();
    counter.latch_status();
    counter.latch_status();
    for (name, byte) in [
        ("the status first", 0xb4),
        ("the high byte of the older latch", 0x12),
        ("the present count, low byte", 0x56),
        ("and high byte", 0x11),
    ] {
        same(&rt, name, counter.read(), byte);
    }
}

#[test]
fn parts_and_back(rt: HostRuntime) {
    let counter = programmed(0, false, 4);
    let parts = counter.parts();
    same(&rt, "parts", Counter::of_parts(parts), Some(counter));
    let triggered = CounterParts {
        trig: true,
        ..parts
    };
    same(&rt, "trig in mode 0", Counter::of_parts(triggered), None);
    let mut low = counter;
    holds(&rt, "from mode 0 to mode 2", low.control(0x14));
}
