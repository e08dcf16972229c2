//! Sequences worked out by hand from the Intel 8254 data sheet.

use crate::checks::{holds, same};
use pit_counter::Rises;
use pit_readback::{Pit, PitParts};
use std::process::Abort;

/// Writes these bytes to the ports 40h to 43h.
fn write(pit: &mut Pit, rows: &[(u8, u8)]) {
    for (port, byte) in rows {
        pit.write(0x40 + *port % 4, *byte);
    }
}

/// Reads one of the ports 40h to 43h again and again.
fn expect(rt: &impl Abort, pit: &mut Pit, port: u8, want: &[u8]) {
    for byte in want {
        same(rt, ("port", port), pit.read(0x40 + port % 4, 0), *byte);
    }
}

#[test]
fn status_before_count_and_the_older_latch_kept(rt: HostRuntime) {
    let mut pit = Pit::power_on();
    write(&mut pit, &[(0x43, 0x34), (0x40, 4), (0x40, 0)]);
    pit.pulses(1);
    write(&mut pit, &[(0x43, 0x00)]);
    pit.pulses(1);
    write(&mut pit, &[(0x43, 0xc3), (0x43, 0xc2)]);
    expect(&rt, &mut pit, 0x40, &[0xb4, 4, 0, 3]);
    expect(&rt, &mut pit, 0x43, &[0xff]);
    let rises = Rises {
        count: 1,
        first: Some(3),
    };
    same(&rt, "rises in 4 pulses", pit.pulses(4), rises);
}

#[test]
fn first_of_two_bytes_stops_the_count(rt: HostRuntime) {
    let mut pit = Pit::power_on();
    write(&mut pit, &[(0x43, 0x30), (0x40, 2), (0x40, 0)]);
    same(&rt, "the first rise", pit.pulses(3).first, Some(3));
    write(&mut pit, &[(0x40, 5)]);
    pit.pulses(2);
    write(&mut pit, &[(0x43, 0xe2)]);
    expect(&rt, &mut pit, 0x40, &[0x30, 0, 0]);
    holds(&rt, "from mode 0 to mode 2", pit.write(0x43, 0x34));
    holds(&rt, "another counter", !pit.write(0x43, 0x74));
}

#[test]
fn gate_2_off_and_on(rt: HostRuntime) {
    let mut pit = Pit::power_on();
    pit.write_61(0x01);
    write(&mut pit, &[(0x43, 0xb4), (0x42, 4), (0x42, 0)]);
    pit.pulses(2);
    write(&mut pit, &[(0x42, 6), (0x42, 0)]);
    pit.pulses(2);
    same(&rt, "GATE high", pit.read_61(3_500), 0x01);
    pit.write_61(0x00);
    same(&rt, "GATE low", pit.read_61(3_500), 0x20);
    pit.pulses(1);
    pit.write_61(0x03);
    pit.pulses(2);
    expect(&rt, &mut pit, 0x42, &[5, 0]);
    for (now, byte) in [(6_000, 0x23), (16_384, 0x33)] {
        same(&rt, ("GATE high again", now), pit.read_61(now), byte);
    }
}

#[test]
fn parts_and_back(rt: HostRuntime) {
    let pit = Pit::power_on();
    let parts = pit.parts();
    same(&rt, "parts", Pit::of_parts(parts), Some(pit));
    let [first, second, third] = parts.counters;
    let swapped = PitParts {
        counters: [first, third, second],
        speaker: false,
    };
    same(&rt, "GATE low in counter 1", Pit::of_parts(swapped), None);
}
