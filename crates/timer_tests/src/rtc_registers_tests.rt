//! Registers of the Motorola MC146818 data sheet, read and written as a guest does; and stretches against the plain program
//! of one pulse after the other.

use crate::checks::{holds, same};
use crate::numbers::next_number;
use rtc_calendar::{Alarm, Form, TimeBytes, after, matches};
use rtc_cycle::{CycleEvents, Divider, DividerParts};
use rtc_registers::{Rtc, RtcEvents, RtcField, RtcParts};
use std::process::Abort;

/// The last second of a century, a Saturday, in BCD; the hour byte is given.
fn last_second(hour: u8) -> TimeBytes {
    TimeBytes {
        sec: 0x59,
        min: 0x59,
        hour,
        wday: 0x07,
        date: 0x31,
        month: 0x12,
        year: 0x99,
    }
}

fn byte_at(clock: &mut Rtc, index: u8) -> u8 {
    clock.write_index(index);
    clock.read()
}

fn write_at(clock: &mut Rtc, index: u8, byte: u8) {
    clock.write_index(index);
    clock.write(byte);
}

/// The byte at an index reads so.
fn reads(rt: &impl Abort, clock: &mut Rtc, index: u8, byte: u8) {
    same(rt, ("byte", index), byte_at(clock, index), byte);
}

#[test]
fn century_turns_after_uip(rt: HostRuntime) {
    let mut clock = Rtc::power_on(last_second(0x23));
    let _ = clock.pulses(16_375);
    reads(&rt, &mut clock, 0x0a, 0x26);
    let _ = clock.pulses(1);
    reads(&rt, &mut clock, 0x0a, 0xa6);
    same(&rt, "72 pulses", clock.pulses(72).cycle.updates, 0);
    reads(&rt, &mut clock, 0x00, 0x59);
    let events = clock.pulses(1);
    same(&rt, "update", events.cycle.first_update, Some(1));
    // the alarm bytes are 0 at power on, and match midnight
    same(&rt, "alarm", events.first_alarm, Some(1));
    for (index, byte) in [
        (0x00, 0x00),
        (0x02, 0x00),
        (0x04, 0x00),
        (0x06, 0x01),
        (0x07, 0x01),
        (0x08, 0x01),
        (0x09, 0x00),
        (0x0a, 0x26),
    ] {
        reads(&rt, &mut clock, index, byte);
    }
}

#[test]
fn alarm_at_midnight_in_twelve_hours(rt: HostRuntime) {
    let mut clock = Rtc::power_on(last_second(0x91));
    for (index, byte) in [(0x0b, 0x20), (0x01, 0x00), (0x03, 0xc0), (0x05, 0xc0)] {
        write_at(&mut clock, index, byte);
    }
    let events = clock.pulses(16_449 + 32_768);
    same(&rt, "updates", events.cycle.updates, 2);
    same(&rt, "alarm", events.first_alarm, Some(16_449));
    let lets = clock.irqf() && clock.aie() && !clock.uie();
    holds(&rt, "IRQF by the alarm alone", lets);
    holds(&rt, "flags", clock.pf() && clock.af() && clock.uf());
    reads(&rt, &mut clock, 0x04, 0x12);
    reads(&rt, &mut clock, 0x0c, 0xf0);
    same(&rt, "index", clock.index(), 0x0c);
    let cleared = !clock.irqf() && !clock.af() && !clock.uf();
    holds(&rt, "flags that were read", cleared);
    reads(&rt, &mut clock, 0x0c, 0x00);
    // a minute after the first match comes the next
    let next = clock.pulses(32_768 * 60).first_alarm;
    same(&rt, "next alarm", next, Some(32_768 * 59));
}

#[test]
fn periodic_flag_with_and_without_its_interrupt(rt: HostRuntime) {
    let mut clock = Rtc::power_on(last_second(0x23));
    same(&rt, "tick", clock.pulses(32).cycle.first_tick, Some(32));
    holds(&rt, "PF", clock.pf() && !clock.pie() && !clock.irqf());
    reads(&rt, &mut clock, 0x0c, 0x40);
    write_at(&mut clock, 0x0b, 0x42);
    holds(&rt, "PIE", !clock.pf() && clock.pie() && !clock.irqf());
    clock.set_pf();
    holds(&rt, "IRQF by PF and PIE", clock.irqf());
    reads(&rt, &mut clock, 0x0c, 0xc0);
    for (register_a, pulses, ticks) in [(0x23, 32_768, 8_192), (0x63, 40_000, 0)] {
        write_at(&mut clock, 0x0a, register_a);
        same(&rt, register_a, clock.pulses(pulses).cycle.ticks, ticks);
    }
}

#[test]
fn set_in_mid_cycle(rt: HostRuntime) {
    let mut clock = Rtc::power_on(last_second(0x23));
    let _ = clock.pulses(16_400);
    reads(&rt, &mut clock, 0x0a, 0xa6);
    // UIE isn't stored where SET turns on, and is where it was on
    for stored in [0x82, 0x92] {
        write_at(&mut clock, 0x0b, 0x92);
        reads(&rt, &mut clock, 0x0b, stored);
    }
    reads(&rt, &mut clock, 0x0a, 0x26);
    same(&rt, "updates", clock.pulses(100_000).cycle.updates, 0);
    reads(&rt, &mut clock, 0x00, 0x59);
}

#[test]
fn what_writes_leave(rt: HostRuntime) {
    let mut clock = Rtc::power_on(last_second(0x23));
    let cases = [
        (0x00, 0x42, 0x42),
        (0x0a, 0xff, 0x7f),
        (0x0b, 0x7f, 0x7f),
        (0x0c, 0xff, 0x00),
        (0x0d, 0x00, 0x80),
        (0x0e, 0x5a, 0x5a),
        (0xff, 0xa5, 0xa5),
    ];
    for (index, byte, left) in cases {
        write_at(&mut clock, index, byte);
        reads(&rt, &mut clock, index, left);
    }
    reads(&rt, &mut clock, 0x7f, 0xa5);
}

/// These fields are a clock's, or this one of them fails first.
fn fails_first(rt: &impl Abort, parts: RtcParts, fault: Option<RtcField>) {
    same(rt, parts, Rtc::first_fault(&parts), fault);
    match Rtc::of_parts(parts) {
        Some(clock) => holds(rt, parts, fault.is_none() && clock.parts() == parts),
        None => holds(rt, parts, fault.is_some()),
    }
}

#[test]
fn field_that_fails_first(rt: HostRuntime) {
    let good = Rtc::power_on(last_second(0x23)).parts();
    let cases = [
        (0x0a, 0x7f, 16_384, false, None),
        (0x0a, 0x80, 32_768, false, Some(RtcField::Bytes)),
        (0x0a, 0x36, 16_384, false, None),
        (0x0a, 0x36, 16_385, true, Some(RtcField::Divider)),
        (0x0a, 0x36, 16_384, true, Some(RtcField::Cycle)),
        (0x0b, 0xff, 0, false, None),
        (0x0b, 0x80, 0, true, Some(RtcField::Cycle)),
        (0x0c, 0x70, 64, true, None),
        (0x0c, 0x70, 65, true, Some(RtcField::Cycle)),
        (0x0c, 0x80, 0, false, Some(RtcField::Bytes)),
        (0x0c, 0x01, 0, false, Some(RtcField::Bytes)),
        (0x0d, 0x00, 0, false, Some(RtcField::Bytes)),
        (0x0e, 0xff, 32_767, false, None),
        (0x0e, 0xff, 32_768, false, Some(RtcField::Divider)),
    ];
    for (place, byte, d, cycle, fault) in cases {
        assert!(rt; place < 128);
        let mut bytes = good.bytes;
        bytes[place] = byte;
        let parts = RtcParts {
            bytes,
            d,
            cycle,
            ..good
        };
        fails_first(&rt, parts, fault);
    }
    let parts = RtcParts { index: 128, ..good };
    fails_first(&rt, parts, Some(RtcField::Index));
}

/// A bit of register B.
fn has_bit(parts: &RtcParts, bit: u8) -> bool {
    parts.bytes[0x0b] & bit != 0
}

/// The divider by register A and SET.
fn divider_of(parts: &RtcParts) -> DividerParts {
    let register_a = parts.bytes[0x0a];
    DividerParts {
        d: parts.d,
        cycle: parts.cycle,
        dv: register_a / 0x10 % 8,
        rs: register_a % 0x10,
        set: has_bit(parts, 0x80),
    }
}

/// The form of the time bytes, by DM and 24/12.
fn form_of(parts: &RtcParts) -> Form {
    Form {
        binary: has_bit(parts, 0x04),
        hours24: has_bit(parts, 0x02),
    }
}

/// The registers of the time.
fn time_of(parts: &RtcParts) -> TimeBytes {
    TimeBytes {
        sec: parts.bytes[0],
        min: parts.bytes[2],
        hour: parts.bytes[4],
        wday: parts.bytes[6],
        date: parts.bytes[7],
        month: parts.bytes[8],
        year: parts.bytes[9],
    }
}

/// The registers of the alarm.
fn alarm_of(parts: &RtcParts) -> Alarm {
    Alarm {
        sec: parts.bytes[1],
        min: parts.bytes[3],
        hour: parts.bytes[5],
    }
}

/// Writes the registers of the time.
fn write_time(bytes: &mut [u8; 128], time: TimeBytes) {
    bytes[0] = time.sec;
    bytes[2] = time.min;
    bytes[4] = time.hour;
    bytes[6] = time.wday;
    bytes[7] = time.date;
    bytes[8] = time.month;
    bytes[9] = time.year;
}

/// The plain program of the definition: one pulse after the other, from these fields, whose divider is `divider`.
fn pulses_one_by_one(parts: RtcParts, divider: Divider, n: u64) -> (RtcParts, RtcEvents) {
    let mut divider = divider;
    let mut time = time_of(&parts);
    let mut flags = parts.bytes[0x0c];
    let mut events = RtcEvents {
        cycle: CycleEvents {
            ticks: 0,
            first_tick: None,
            updates: 0,
            first_update: None,
        },
        first_alarm: None,
    };
    for done in 0..n {
        let pulse = Some(done.wrapping_add(1));
        let cycle = divider.pulses(1);
        if cycle.ticks > 0 {
            flags |= 0x40;
            events.cycle.ticks = events.cycle.ticks.wrapping_add(1);
            events.cycle.first_tick = events.cycle.first_tick.or(pulse);
        }
        if cycle.updates > 0 {
            time = after(time, form_of(&parts), 1);
            flags |= 0x10;
            events.cycle.updates = events.cycle.updates.wrapping_add(1);
            events.cycle.first_update = events.cycle.first_update.or(pulse);
        }
        if cycle.updates > 0 && matches(time, alarm_of(&parts)) {
            flags |= 0x20;
            events.first_alarm = events.first_alarm.or(pulse);
        }
    }
    let mut bytes = parts.bytes;
    write_time(&mut bytes, time);
    bytes[0x0c] = flags;
    let clock = divider.parts();
    let parts = RtcParts {
        bytes,
        d: clock.d,
        cycle: clock.cycle,
        ..parts
    };
    (parts, events)
}

/// Does to a clock what the bits of a number say: a rate or now and then a stop, a form of the time bytes or now and
/// then SET, a time or alarm byte, an alarm within some seconds, or a read of register C.
fn change(clock: &mut Rtc, x: u64) {
    let byte = (x / 8 % 256) as u8;
    match x % 8 {
        0 => write_at(
            clock,
            0x0a,
            if byte < 0xf0 { 0x20 + byte % 16 } else { byte },
        ),
        1 => write_at(clock, 0x0b, if byte < 0xe0 { byte % 128 } else { byte }),
        2 => write_at(clock, byte % 10, (x / 2_048 % 256) as u8),
        3..=5 => {
            let sec = clock.parts().bytes[0].wrapping_add(byte % 4);
            write_at(clock, 0x01, sec);
            write_at(clock, 0x03, 0xc0);
            write_at(clock, 0x05, 0xff);
        }
        _ => {
            byte_at(clock, 0x0c);
        }
    }
}

/// A stretch by the bits of a number: some pulses, up to an update's end, or some seconds.
fn stretch(x: u64) -> u64 {
    match x % 4 {
        0 => x / 4 % 256,
        1 => 16_440 + x / 4 % 16,
        2 => 32_760 + x / 4 % 16,
        _ => x / 4 % 131_072,
    }
}

#[test]
fn many_pulses_are_single_ones(rt: HostRuntime) {
    let mut x = 146_818;
    let mut clock = Rtc::power_on(last_second(0x23));
    let mut alarms: u32 = 0;
    for _ in 0..400 {
        x = next_number(x);
        change(&mut clock, x >> 32);
        let n = stretch(x >> 16);
        let before = clock.parts();
        let divider = Divider::of_parts(divider_of(&before)).expect(&rt, "a clock's divider");
        let (parts, events) = pulses_one_by_one(before, divider, n);
        same(&rt, (n, before), clock.pulses(n), events);
        same(&rt, (n, before), clock.parts(), parts);
        alarms = alarms.saturating_add(u32::from(events.first_alarm.is_some()));
    }
    holds(&rt, ("stretches with an alarm", alarms), alarms > 30);
}
