//! Register traces of one block, read and written as a guest does.

ghost use Rattle.std.specs.Prelude.{◌*◌, ◌^◌, ◌<◌, ◌≤◌, IsTrue};
ghost use Rattle.hpet_registers.specs.Access.{is_access_width};

use crate::checks::{holds, same};
use hpet_comparator::Matches;
use hpet_registers::{Hpet, HpetParts};
use std::process::Abort;

/// Offset, width and value of an access.
type Access = (u16, u8, u64);

/// Whether it is one that a guest can make.
fn is_legal(offset: u16, width: u8, v: u64) -> bool
    ensures offset { IsTrue result → offset ≤ 1023 }
    ensures width { IsTrue result → IsTrue (is_access_width width) }
    ensures fits { IsTrue result → v < 2 ^ (8 * width) }
{
    let fits = match width {
        1 => v < 0x100,
        2 => v < 0x1_0000,
        4 => v < 0x1_0000_0000,
        8 => true,
        _ => false,
    };
    fits && offset <= 0x3ff
}

fn write_all(rt: &impl Abort, hpet: &mut Hpet, writes: &[Access]) {
    for &(offset, width, v) in writes {
        assert!(rt; is_legal(offset, width, v), "a write at {offset:x}");
        hpet.write(offset, width, v);
    }
}

fn read_all(rt: &impl Abort, hpet: &Hpet, reads: &[Access]) {
    for &(offset, width, want) in reads {
        assert!(rt; is_legal(offset, width, want), "a read at {offset:x}");
        same(rt, (offset, width), hpet.read(offset, width), want);
    }
}

/// The matches of timer 0 over `n` pulses; the other timers must have none.
fn matches_of_first(rt: &impl Abort, hpet: &mut Hpet, n: u64) -> Matches {
    let mut matches = [Matches::NONE; 8];
    hpet.pulses(n, &mut matches);
    for other in &matches[1..] {
        same(rt, "another timer", *other, Matches::NONE);
    }
    matches[0]
}

/// Timer 0 has so many matches over `n` pulses, the first at this one; the other timers have none.
fn has_matches(rt: &impl Abort, hpet: &mut Hpet, n: u64, count: u64, first: Option<u64>) {
    let matches = matches_of_first(rt, hpet, n);
    same(rt, n, matches, Matches { count, first });
}

#[test]
fn reads_of_a_fresh_block(rt: HostRuntime) {
    let mut hpet = Hpet::power_on(3, false);
    let reads = [
        (0x000, 8, 0x0098_9680_8086_a201),
        (0x000, 4, 0x8086_a201),
        (0x004, 4, 0x0098_9680),
        // reserved, and timers that aren't there
        (0x030, 8, 0),
        (0x110, 8, 0),
        (0x160, 8, 0),
        (0x3f8, 8, 0),
        (0x140, 8, 0x00f0_0000_0000_2830),
        // of another width, or not aligned
        (0x000, 1, 0xff),
        (0x002, 2, 0xffff),
        (0x002, 4, 0xffff_ffff),
        (0x004, 8, 0xffff_ffff_ffff_ffff),
    ];
    read_all(&rt, &hpet, &reads);
    write_all(&rt, &mut hpet, &[(0x010, 4, 1)]);
    let _ = matches_of_first(&rt, &mut hpet, 100);
    read_all(&rt, &hpet, &[(0x0f0, 8, 0x64)]);

    let wide = Hpet::power_on(8, false);
    read_all(
        &rt,
        &wide,
        &[
            (0x000, 8, 0x0098_9680_8086_a701),
            (0x1e0, 8, 0x00f0_0000_0000_2830),
        ],
    );
}

#[test]
fn periodic_in_32_bits_across_a_wrap(rt: HostRuntime) {
    let mut hpet = Hpet::power_on(3, false);
    let writes = [
        (0x100, 8, 0x294c),
        (0x108, 8, 0xffff_fff8),
        (0x108, 8, 0x10),
        (0x0f0, 8, 0xffff_fff0),
        (0x010, 4, 1),
    ];
    write_all(&rt, &mut hpet, &writes);
    has_matches(&rt, &mut hpet, 45, 3, Some(8));
    let reads = [
        (0x108, 8, 0x28),
        (0x0f0, 8, 0x1_0000_001d),
        (0x100, 8, 0x00f0_0000_0000_293c),
    ];
    read_all(&rt, &hpet, &reads);
}

#[test]
fn one_shot_under_legacy_replacement(rt: HostRuntime) {
    let mut hpet = Hpet::power_on(3, false);
    write_all(&rt, &mut hpet, &[(0x100, 8, 0x2804), (0x108, 8, 0x64)]);
    // the counter is halted
    has_matches(&rt, &mut hpet, 350, 0, None);
    write_all(&rt, &mut hpet, &[(0x010, 4, 3)]);
    holds(&rt, "legacy replacement", hpet.legacy());
    has_matches(&rt, &mut hpet, 150, 1, Some(100));
    read_all(&rt, &hpet, &[(0x010, 8, 3), (0x020, 8, 0)]);
}

#[test]
fn message_registers_of_eight_timers(rt: HostRuntime) {
    let mut hpet = Hpet::power_on(8, true);
    let writes = [
        (0x100, 8, 0x684c),
        (0x110, 8, 0xfee0_0000_0000_0041),
        (0x108, 8, 0x64),
        (0x010, 4, 1),
    ];
    write_all(&rt, &mut hpet, &writes);
    let message = Some((0xfee0_0000, 0x41));
    same(&rt, "timer 0", hpet.message(0), message);
    same(&rt, "timer 1", hpet.message(1), None);
    same(&rt, "spacing", hpet.spacing(0), 100);
    has_matches(&rt, &mut hpet, 350, 3, Some(100));
    let reads = [
        (0x100, 8, 0x00f0_0000_0000_e83c),
        (0x110, 4, 0x41),
        (0x114, 4, 0xfee0_0000),
        (0x120, 8, 0x00f0_0000_0000_a830),
    ];
    read_all(&rt, &hpet, &reads);
    // under legacy replacement timers 0 and 1 send none
    write_all(&rt, &mut hpet, &[(0x010, 4, 3)]);
    same(&rt, "legacy replacement", hpet.message(0), None);
    let parts = hpet.parts();
    same(&rt, "parts", Hpet::of_parts(parts), Some(hpet));
    let others = [
        HpetParts { timers: 3, ..parts },
        HpetParts {
            messages: false,
            ..parts
        },
        HpetParts { config: 4, ..parts },
    ];
    for parts in others {
        same(&rt, "no block", Hpet::of_parts(parts), None);
    }
}

#[test]
fn status_of_level_timers(rt: HostRuntime) {
    let mut hpet = Hpet::power_on(3, false);
    // timer 0 of level type and enabled, timer 1 of level type alone, timer 2 of edge type
    let writes = [
        (0x100, 8, 0x2806),
        (0x120, 8, 0x2802),
        (0x140, 8, 0x2804),
        (0x108, 8, 10),
        (0x128, 8, 10),
        (0x148, 8, 10),
        (0x010, 4, 1),
    ];
    write_all(&rt, &mut hpet, &writes);
    hpet.pulses(10, &mut [Matches::NONE; 8]);
    read_all(&rt, &hpet, &[(0x020, 8, 3)]);
    same(&rt, "timers", hpet.parts().timers, 3);
    for (timer, level) in [(0, true), (1, false), (2, false)] {
        same(&rt, ("level", timer), hpet.level(timer), level);
    }
    // a written 0 leaves a bit, a written 1 clears it, and the high half clears none
    write_all(&rt, &mut hpet, &[(0x020, 8, 2), (0x024, 4, 0xffff_ffff)]);
    read_all(&rt, &hpet, &[(0x020, 8, 1)]);
}

#[test]
fn writes_of_halves(rt: HostRuntime) {
    let mut hpet = Hpet::power_on(8, true);
    let writes = [
        (0x0f0, 4, 0x1111_1111),
        (0x0f4, 4, 0x2222_2222),
        (0x108, 4, 0x3333_3333),
        (0x10c, 4, 0x4444_4444),
        (0x110, 4, 0x5555_5555),
        (0x114, 4, 0x6666_6666),
        (0x100, 4, 0xffff_ffff),
        (0x104, 4, 0xffff_ffff),
        (0x010, 4, 0xffff_fffe),
        (0x014, 4, 0xffff_ffff),
        (0x000, 4, 0xffff_ffff),
        (0x028, 8, 0xffff_ffff_ffff_ffff),
        // these reach no register
        (0x010, 1, 0),
        (0x0f0, 2, 0),
        (0x0f2, 4, 0),
        (0x0f4, 8, 0),
    ];
    write_all(&rt, &mut hpet, &writes);
    let reads = [
        (0x000, 8, 0x0098_9680_8086_a701),
        (0x010, 8, 2),
        (0x028, 8, 0),
        (0x0f0, 8, 0x2222_2222_1111_1111),
        // the route 31 is left at 20, and 32-bit mode cuts the comparator
        (0x100, 8, 0x00f0_0000_0000_e97e),
        (0x108, 8, 0x3333_3333),
        (0x110, 8, 0x6666_6666_5555_5555),
    ];
    read_all(&rt, &hpet, &reads);
}
