//! What format 2 brings, and boards that are taken to it.
use super::{MIDNIGHT, counts, hpet_read, out, play, programmed, read, setup};
use crate::boards::{clock, page};
use crate::checks::same;
use board_core::{Access, BoardState, LAST_FORMAT, MSR_KVM_SYSTEM_TIME, TickSource, Value};
use std::process::Abort;
use tick_policy::Policy;

/// How often line 0 went up, at 5000.
const fn rose(value: u64) -> (u64, Access, Value) {
    let word = Value::Word { width: 8, value };
    (5_000, Access::Rose { line: 0 }, word)
}

#[test]
fn eight_timers_and_counts_of_rises_in_format_2(rt: HostRuntime) {
    let mut board = BoardState::power_on(&setup(2, Policy::Delay, MIDNIGHT));
    let rows = [
        hpet_read(0, 0, 0x0098_9680_8086_a701),
        hpet_read(0, 0x1e0, 0x00f0_0000_0000_2830),
        out(0x43, 0x34),
        out(0x40, 4),
        out(0x40, 0),
        (5_000, Access::Step, Value::Nothing),
        read(5_000, 0x40, 4),
        read(5_000, 0x40, 0),
        rose(1),
        (5_000, Access::Ack { line: 0 }, Value::Nothing),
        (9_000, Access::Step, Value::Nothing),
        rose(2),
    ];
    let edges = [(4191, 0, true), (5_000, 0, false), (7543, 0, true)];
    play(&rt, &mut board, &rows, &edges);
}

/// A board of format 1 with line 0 up, a page, and a clock that was read.
fn in_use(rt: &impl Abort) -> BoardState {
    let mut board = programmed(rt, Policy::Delay, 0x34, 4);
    let enable = Access::MsrWrite {
        msr: MSR_KVM_SYSTEM_TIME,
        value: 1,
    };
    let rows = [
        (0, enable, Value::Nothing),
        (5_000, Access::Step, Value::Nothing),
    ];
    play(rt, &mut board, &rows, &[(4191, 0, true)]);
    let _ = clock(rt, &mut board, 0, 5_000);
    board
}

/// A board in a later format, or the same.
fn taken_to(rt: &impl Abort, old: &BoardState, format: u8) -> BoardState {
    if format < old.format() || format > LAST_FORMAT {
        panic!(rt; "format {format}");
    }
    old.upgraded(format)
}

/// What is told of the devices of a board that was taken to format 2.
fn keeps_its_devices(rt: &impl Abort, old: &BoardState, new: &BoardState) {
    let (before, after) = (old.parts(), new.parts());
    same(rt, "8254", after.pit, before.pit);
    same(rt, "MC146818", after.rtc, before.rtc);
    same(rt, "timers before", before.hpet.timers, 3);
    same(rt, "timers", after.hpet.timers, 8);
    same(rt, "rises", after.rises, [0; 6]);
    for k in 0..5 {
        same(rt, k, after.ticks[k], before.ticks[k]);
    }
}

#[test]
fn a_board_taken_to_format_2_tells_what_it_told(rt: HostRuntime) {
    let old = in_use(&rt);
    let new = taken_to(&rt, &old, 2);
    same(&rt, "format before", old.format(), 1);
    let rows = [
        ("format", u64::from(new.format()), 2),
        ("processors", u64::from(new.cpus()), 1),
        ("time", new.now(), 5_000),
        ("accesses", new.accesses(), 5),
        ("greatest", new.greatest(), 5_000),
    ];
    for (row, seen, wanted) in rows {
        same(&rt, row, seen, wanted);
    }
    same(&rt, "lines", new.lines(), old.lines());
    same(&rt, "anchor", new.anchor(), old.anchor());
    same(&rt, "page", page(&rt, &new), page(&rt, &old));
    let still_1 = taken_to(&rt, &old, 1);
    same(&rt, "HPET", still_1.parts().hpet, old.parts().hpet);
    keeps_its_devices(&rt, &old, &new);
}

#[test]
fn a_board_of_format_2_that_was_one_of_format_1_counts_from_then_on(rt: HostRuntime) {
    let old = in_use(&rt);
    same(&rt, "format before", old.format(), 1);
    let mut board = taken_to(&rt, &old, 2);
    let rows = [
        hpet_read(5_000, 0x1e0, 0x00f0_0000_0000_2830),
        counts(5_000, TickSource::Hpet(7), 0, 0, 0, 0),
        rose(0),
        (5_000, Access::Ack { line: 0 }, Value::Nothing),
        (9_000, Access::Step, Value::Nothing),
        rose(1),
    ];
    let edges = [(5_000, 0, false), (7543, 0, true)];
    play(&rt, &mut board, &rows, &edges);
}
