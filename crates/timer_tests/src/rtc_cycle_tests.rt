//! Dividers by the Motorola MC146818 data sheet ("Divider stages", "Periodic interrupt selection", "Update cycle"): events
//! counted by hand, and stretches against the plain program of one pulse after the other.

use crate::checks::{holds, same};
use rtc_cycle::{CycleEvents, Divider, DividerParts};

/// A divider, pulse by pulse: the data sheet's steps as a plain program.
#[derive(Clone, Copy, Debug, PartialEq, Eq)]
struct Stepped {
    parts: DividerParts,
    events: CycleEvents,
}

/// The pulses of a period of the rate.
fn period_of(rs: u8) -> u16 {
    match rs {
        1 => 128,
        2 => 256,
        3 => 4,
        4 => 8,
        5 => 16,
        6 => 32,
        7 => 64,
        8 => 128,
        9 => 256,
        10 => 512,
        11 => 1_024,
        12 => 2_048,
        13 => 4_096,
        14 => 8_192,
        _ => 16_384,
    }
}

/// The fields after a pulse.
fn next(p: DividerParts) -> DividerParts {
    if p.dv != 2 {
        return p;
    }
    let d = p.d.wrapping_add(1) % 32_768;
    DividerParts {
        d,
        cycle: (d == 0 && !p.set) || (p.cycle && d != 65),
        ..p
    }
}

/// Whether a pulse that leads to these fields is a periodic event.
fn is_tick(p: DividerParts) -> bool {
    let period = period_of(p.rs);
    p.dv == 2 && p.rs != 0 && period != 0 && p.d % period == 0
}

/// The count and the first event after a pulse.
fn with_event(count: u64, first: Option<u64>, pulse: u64, event: bool) -> (u64, Option<u64>) {
    if event {
        (count.wrapping_add(1), first.or(Some(pulse)))
    } else {
        (count, first)
    }
}

fn step_by_step(parts: DividerParts, pulses: u64) -> Stepped {
    let mut now = parts;
    let mut ticks = (0, None);
    let mut updates = (0, None);
    for pulse in 1..pulses.saturating_add(1) {
        let before = now;
        now = next(before);
        ticks = with_event(ticks.0, ticks.1, pulse, is_tick(now));
        let ends = now.dv == 2 && before.cycle && now.d == 65;
        updates = with_event(updates.0, updates.1, pulse, ends);
    }
    Stepped {
        parts: now,
        events: CycleEvents {
            ticks: ticks.0,
            first_tick: ticks.1,
            updates: updates.0,
            first_update: updates.1,
        },
    }
}

/// Fields by the bits of a number, mostly near where something happens.
fn made(x: u32) -> DividerParts {
    let d = match x / 256 % 8 {
        0 => 0,
        1 => 63,
        2 => 64,
        3 => 65,
        4 => 16_384,
        5 => 32_759,
        6 => 32_767,
        _ => x / 65_536 % 32_768,
    };
    DividerParts {
        d: d as u16,
        cycle: x / 2_048 % 2 == 1,
        dv: if x / 4_096 % 8 == 0 { 6 } else { 2 },
        rs: (x / 32_768 % 16) as u8,
        set: x / 524_288 % 4 == 0,
    }
}

/// A stretch by the bits of a number.
fn stretch(x: u32) -> u64 {
    match x / 2_097_152 % 8 {
        0 => 0,
        1 => 1,
        2 => 64,
        3 => 65,
        4 => 66,
        5 => 32_768,
        6 => 32_833,
        _ => 70_000,
    }
}

#[test]
fn stretches_are_single_pulses(rt: HostRuntime) {
    let mut x: u32 = 1;
    let mut tried: u32 = 0;
    for _round in 0..1_500 {
        x = x.wrapping_mul(1_664_525).wrapping_add(1_013_904_223);
        if let Some(divider) = Divider::of_parts(made(x)) {
            let mut divider = divider;
            let plain = step_by_step(made(x), stretch(x));
            let events = divider.pulses(stretch(x));
            let parts = divider.parts();
            same(&rt, ("state", x), Stepped { parts, events }, plain);
            tried = tried.saturating_add(1);
        }
    }
    holds(&rt, ("states tried", tried), tried > 300);
}

#[test]
fn ten_million_years(rt: HostRuntime) {
    for (pulses, ticks, updates) in [(1 << 63, 1 << 58, 1 << 48)] {
        let mut divider = Divider::power_on();
        let events = divider.pulses(pulses);
        same(
            &rt,
            pulses,
            (events.ticks, events.updates),
            (ticks, updates),
        );
    }
}

#[test]
fn events_from_power_on(rt: HostRuntime) {
    let mut divider = Divider::power_on();
    for (pulses, ticks, first_tick, updates, first_update) in [
        (16_384, 512, Some(32), 0, None),
        (65, 2, Some(32), 1, Some(65)),
        (65_536, 2_048, Some(31), 2, Some(32_768)),
    ] {
        let events = CycleEvents {
            ticks,
            first_tick,
            updates,
            first_update,
        };
        same(&rt, pulses, divider.pulses(pulses), events);
    }
    let mut fresh = Divider::power_on();
    let first_update = fresh.pulses(16_449).first_update;
    same(&rt, "at once", first_update, Some(16_449));
}

#[test]
fn uip_from_8_pulses_before_the_cycle_to_its_end(rt: HostRuntime) {
    for (pulses, uip) in [
        (0, false),
        (16_375, false),
        (16_376, true),
        (16_384, true),
        (16_448, true),
        (16_449, false),
    ] {
        let mut divider = Divider::power_on();
        let _ = divider.pulses(pulses);
        same(&rt, ("UIP behind", pulses), divider.uip(), uip);
    }
}

#[test]
fn rates(rt: HostRuntime) {
    let cases = [
        (0, 0, None),
        (1, 256, Some(128)),
        (2, 128, Some(256)),
        (3, 8_192, Some(4)),
        (4, 4_096, Some(8)),
        (15, 2, Some(16_384)),
    ];
    for (rs, ticks, first) in cases {
        let mut divider = Divider::power_on();
        divider.rate(rs);
        let events = divider.pulses(32_768);
        same(
            &rt,
            ("rate", rs),
            (events.ticks, events.first_tick),
            (ticks, first),
        );
    }
}

#[test]
fn set_and_dv_in_mid_cycle(rt: HostRuntime) {
    let mut divider = Divider::power_on();
    let _ = divider.pulses(16_390);
    divider.set(true);
    holds(&rt, "UIP with SET", !divider.uip());
    same(&rt, "updates with SET", divider.pulses(10).updates, 0);
    divider.set(false);
    // the cycle that was abandoned doesn't end; the next one does
    let first_update = divider.pulses(40_000).first_update;
    same(&rt, "behind SET", first_update, Some(32_768 - 16 + 65));

    let mut divider = Divider::power_on();
    let _ = divider.pulses(16_390);
    divider.dv(6);
    holds(&rt, "UIP at DV 6", !divider.uip());
    let held = divider.pulses(40_000);
    same(&rt, "events at DV 6", (held.ticks, held.updates), (0, 0));
    divider.dv(2);
    let events = divider.pulses(20_000);
    same(&rt, "first tick", events.first_tick, Some(32));
    same(&rt, "first update", events.first_update, Some(16_449));
}

#[test]
fn fields_that_no_divider_has(rt: HostRuntime) {
    let good = DividerParts {
        d: 64,
        cycle: true,
        dv: 2,
        rs: 15,
        set: false,
    };
    let cases = [
        (good, true),
        (DividerParts { d: 65, ..good }, false),
        (DividerParts { set: true, ..good }, false),
        (DividerParts { dv: 3, ..good }, false),
        (DividerParts { rs: 16, ..good }, false),
        (
            DividerParts {
                d: 32_768,
                cycle: false,
                ..good
            },
            false,
        ),
        (
            DividerParts {
                d: 16_384,
                cycle: false,
                dv: 7,
                ..good
            },
            true,
        ),
        (
            DividerParts {
                d: 16_384,
                cycle: false,
                dv: 8,
                ..good
            },
            false,
        ),
        (
            DividerParts {
                d: 16_385,
                cycle: false,
                dv: 7,
                ..good
            },
            false,
        ),
    ];
    for (parts, valid) in cases {
        match Divider::of_parts(parts) {
            Some(divider) => holds(&rt, parts, valid && divider.parts() == parts),
            None => holds(&rt, parts, !valid),
        }
    }
}
