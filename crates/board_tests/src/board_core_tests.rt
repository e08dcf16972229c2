//! Sequences worked out by hand from the data sheets, and stretches against steps of a nanosecond.
ghost use Rattle.std.specs.Prelude.{◌≤◌};
ghost use Rattle.board_types.specs.Setup.{IsSetup};

mod clocks;
mod formats;
mod refusals;
mod steps;

use crate::boards::ask;
use crate::checks::same;
use board_core::{Access, BoardState, Setup, TickSource, Value};
use host_counter::Anchor;
use irq_edges::Edge;
use rtc_calendar::TimeBytes;
use std::process::Abort;
use tick_policy::{Counts, Policy};

/// A host and a guest of 1 GHz from 0, one processor, one policy for all ticks, and a time of day.
fn setup(format: u8, policy: Policy, time: TimeBytes) -> Setup
    requires low { 1 ≤ format }
    requires high { format ≤ 2 }
    ensures { IsSetup result }
{
    Setup {
        format,
        anchor: Anchor {
            khz: 1_000_000,
            start: 0,
            base_ns: 0,
        },
        guest_khz: 1_000_000,
        cpus: 1,
        pit: policy,
        rtc: Policy::Delay,
        hpet: Policy::Delay,
        slew_ns: 1_000,
        wall_sec: 11,
        wall_nsec: 12,
        time,
    }
}

/// The first second of 2000, a Saturday, in BCD.
const MIDNIGHT: TimeBytes = TimeBytes {
    sec: 0,
    min: 0,
    hour: 0,
    wday: 7,
    date: 1,
    month: 1,
    year: 0,
};

/// The last second of 1999, in BCD.
const LAST_SECOND: TimeBytes = TimeBytes {
    sec: 0x59,
    min: 0x59,
    hour: 0x23,
    wday: 6,
    date: 0x31,
    month: 0x12,
    year: 0x99,
};

/// A board of format 1.
fn board(policy: Policy) -> BoardState {
    BoardState::power_on(&setup(1, policy, MIDNIGHT))
}

/// Accesses of processor 0, each with its count and the value that it gives, and all their edges.
fn play(
    rt: &impl Abort,
    board: &mut BoardState,
    steps: &[(u64, Access, Value)],
    edges: &[(u64, u8, bool)],
) {
    let mut seen = 0;
    for (h, access, value) in steps {
        let reply = ask(rt, board, *h, *access);
        same(rt, (*h, *access), reply.value, *value);
        for edge in reply.edges.as_slice() {
            if seen >= edges.len() {
                panic!(rt; "{edge:?}");
            }
            let (at, line, up) = edges[seen];
            same(rt, seen, *edge, Edge { at, line, up });
            seen += 1;
        }
    }
    same(rt, "edges", seen, edges.len());
}

/// A write of a byte to a port at 0.
const fn out(port: u8, byte: u8) -> (u64, Access, Value) {
    (0, Access::PortOut { port, byte }, Value::Nothing)
}

/// A read of a port.
const fn read(h: u64, port: u8, byte: u8) -> (u64, Access, Value) {
    (h, Access::PortIn { port }, Value::Byte(byte))
}

/// Ticks of a source: due, rises, queue, lost.
const fn counts(
    h: u64,
    from: TickSource,
    due: u64,
    rises: u64,
    queue: u64,
    lost: u64,
) -> (u64, Access, Value) {
    let counts = Counts {
        due,
        rises,
        queue,
        lost,
    };
    (h, Access::CountsOf { from }, Value::Counts(counts))
}

/// A board of format 1 with a mode of counter 0 of its 8254, and a count below 256, both written at 0.
fn programmed(rt: &impl Abort, policy: Policy, control: u8, count: u8) -> BoardState {
    let mut board = board(policy);
    let rows = [out(0x43, control), out(0x40, count), out(0x40, 0)];
    play(rt, &mut board, &rows, &[]);
    board
}

#[test]
fn ticks_of_the_8254_in_modes_0_2_and_3(rt: HostRuntime) {
    let mut first = board(Policy::Delay);
    let rows = [
        out(0x43, 0x10),
        out(0x40, 1),
        counts(2_000, TickSource::Pit, 1, 1, 0, 0),
    ];
    play(&rt, &mut first, &rows, &[(1677, 0, true)]);
    let mut second = programmed(&rt, Policy::Delay, 0x34, 4);
    let rows = [read(5_000, 0x40, 4), read(5_000, 0x40, 0)];
    play(&rt, &mut second, &rows, &[(4191, 0, true)]);
    let mut third = programmed(&rt, Policy::Delay, 0x36, 5);
    let rows = [
        counts(10_000, TickSource::Pit, 2, 1, 1, 0),
        read(10_000, 0x40, 4),
    ];
    play(&rt, &mut third, &rows, &[(5029, 0, true)]);
}

#[test]
fn the_next_edge_of_a_whole_count(rt: HostRuntime) {
    let mut binary = programmed(&rt, Policy::Delay, 0x34, 0);
    let next = (0, Access::Next, Value::Next(Some(54_926_240)));
    play(&rt, &mut binary, &[next], &[]);
    same(&rt, "binary", binary.next_edge(), Some(54_926_240));
    let mut decimal = programmed(&rt, Policy::Delay, 0x35, 0);
    let next = (0, Access::Next, Value::Next(Some(8_381_790)));
    play(&rt, &mut decimal, &[next], &[]);
    let mut none = board(Policy::Delay);
    play(&rt, &mut none, &[(0, Access::Next, Value::Next(None))], &[]);
}

#[test]
fn a_first_of_two_bytes_takes_the_line_down(rt: HostRuntime) {
    let mut board = programmed(&rt, Policy::Delay, 0x30, 2);
    let rows = [
        (3_000, Access::Ack { line: 0 }, Value::Nothing),
        (
            3_000,
            Access::PortOut {
                port: 0x40,
                byte: 5,
            },
            Value::Nothing,
        ),
        (
            5_000,
            Access::PortOut {
                port: 0x43,
                byte: 0xe2,
            },
            Value::Nothing,
        ),
        read(5_000, 0x40, 0x30),
        read(5_000, 0x40, 0),
        read(5_000, 0x40, 0),
    ];
    play(&rt, &mut board, &rows, &[(2515, 0, true), (3000, 0, false)]);
}

#[test]
fn the_clock_turns_the_century(rt: HostRuntime) {
    let mut board = BoardState::power_on(&setup(1, Policy::Delay, LAST_SECOND));
    let rows = [
        out(0x70, 0x0a),
        read(499_755_859, 0x71, 0x26),
        read(499_755_860, 0x71, 0xa6),
        out(0x70, 0),
        read(501_983_642, 0x71, 0x59),
        read(501_983_643, 0x71, 0),
        out(0x70, 9),
        read(501_983_643, 0x71, 0),
    ];
    play(&rt, &mut board, &rows, &[]);
}

#[test]
fn an_alarm_at_midnight_by_a_clock_of_twelve_hours(rt: HostRuntime) {
    let before = TimeBytes {
        hour: 0x91,
        ..LAST_SECOND
    };
    let mut board = BoardState::power_on(&setup(1, Policy::Delay, before));
    let begin = [
        out(0x70, 0x0b),
        out(0x71, 0x20),
        out(0x70, 1),
        out(0x71, 0),
        out(0x70, 3),
        out(0x71, 0xc0),
        out(0x70, 5),
        out(0x71, 0xc0),
    ];
    play(&rt, &mut board, &begin, &[]);
    let at = 501_983_643;
    let rows = [
        (at, Access::Step, Value::Nothing),
        out(0x70, 4),
        read(at, 0x71, 0x12),
        out(0x70, 0x0c),
        read(at, 0x71, 0xf0),
    ];
    play(&rt, &mut board, &rows, &[(at, 8, true), (at, 8, false)]);
}

/// An access at a count before the board's is taken, moves no time, and gets the next number.
#[test]
fn a_count_before_the_boards_moves_no_time(rt: HostRuntime) {
    let mut board = board(Policy::Delay);
    for (h, now, number) in [(10, 10, 1), (9, 10, 2), (0, 10, 3), (11, 11, 4)] {
        let reply = ask(&rt, &mut board, h, Access::Step);
        same(&rt, h, reply.value, Value::Nothing);
        same(&rt, h, (reply.number, board.accesses()), (number, number));
        same(&rt, h, board.now(), now);
    }
}

#[test]
fn a_tick_of_the_clock_that_waits_shows_at_a_read_of_c(rt: HostRuntime) {
    let mut board = board(Policy::Delay);
    let rows = [
        out(0x70, 0x0b),
        out(0x71, 0x42),
        counts(2_000_000, TickSource::Rtc, 2, 1, 1, 0),
        out(0x70, 0x0c),
        read(2_000_000, 0x71, 0xc0),
        counts(2_000_000, TickSource::Rtc, 2, 2, 0, 0),
    ];
    let edges = [
        (976_563, 8, true),
        (2_000_000, 8, false),
        (2_000_000, 8, true),
    ];
    play(&rt, &mut board, &rows, &edges);
    let levels = [false, true, false, false, false, false];
    same(&rt, "levels", board.lines().levels, levels);
    same(&rt, "time", board.now(), 2_000_000);
    same(&rt, "accesses", board.accesses(), 6);
}

/// A write of 8 bytes to the HPET at 0.
const fn hpet_write(offset: u16, value: u64) -> (u64, Access, Value) {
    let access = Access::HpetWrite {
        offset,
        width: 8,
        value,
    };
    (0, access, Value::Nothing)
}

/// A read of 8 bytes of the HPET.
const fn hpet_read(h: u64, offset: u16, value: u64) -> (u64, Access, Value) {
    (
        h,
        Access::HpetRead { offset, width: 8 },
        Value::Word { width: 8, value },
    )
}

#[test]
fn a_periodic_timer_across_a_wrap(rt: HostRuntime) {
    let mut board = board(Policy::Delay);
    let rows = [
        hpet_read(0, 0, 0x0098_9680_8086_a201),
        hpet_write(0x100, 0x294c),
        hpet_write(0x108, 0xffff_fff8),
        hpet_write(0x108, 0x10),
        hpet_write(0xf0, 0xffff_fff0),
        hpet_write(0x10, 1),
        counts(450, TickSource::Hpet(0), 3, 1, 2, 0),
        hpet_read(450, 0x108, 0x28),
        hpet_read(450, 0xf0, 0x1_0000_001d),
        hpet_read(450, 0x100, 0x00f0_0000_0000_293c),
    ];
    play(&rt, &mut board, &rows, &[(80, 20, true)]);
}

#[test]
fn legacy_replacement_while_out_0_is_low(rt: HostRuntime) {
    let mut board = programmed(&rt, Policy::Delay, 0x34, 4);
    let enable = Access::HpetWrite {
        offset: 0x10,
        width: 4,
        value: 3,
    };
    let rows = [
        hpet_write(0x100, 0x2804),
        hpet_write(0x108, 0x64),
        (3_500, enable, Value::Nothing),
        counts(5_000, TickSource::Pit, 0, 0, 0, 0),
        counts(5_000, TickSource::Hpet(0), 1, 1, 0, 0),
    ];
    play(&rt, &mut board, &rows, &[(4500, 0, true)]);
}

/// Ten ticks that are missed under a policy: their counts before and after the line is acknowledged, and all edges.
fn play_missed(
    rt: &impl Abort,
    policy: Policy,
    before: (u64, Access, Value),
    after: (u64, Access, Value),
    edges: &[(u64, u8, bool)],
) {
    let mut board = programmed(rt, policy, 0x34, 4);
    let ack = (38_000, Access::Ack { line: 0 }, Value::Nothing);
    play(rt, &mut board, &[before, ack, after], edges);
}

#[test]
fn ten_missed_ticks_under_each_policy(rt: HostRuntime) {
    let up = (4191, 0, true);
    let down = (38_000, 0, false);
    let lost = counts(38_000, TickSource::Pit, 11, 1, 0, 10);
    let still_lost = counts(39_000, TickSource::Pit, 11, 1, 0, 10);
    play_missed(&rt, Policy::Discard, lost, still_lost, &[up, down]);
    let queued = counts(38_000, TickSource::Pit, 11, 1, 10, 0);
    let one_less = counts(39_000, TickSource::Pit, 11, 2, 9, 0);
    let at_once = (38_000, 0, true);
    play_missed(&rt, Policy::Delay, queued, one_less, &[up, down, at_once]);
    let at_the_point = (39_000, 0, true);
    play_missed(
        &rt,
        Policy::Slew,
        queued,
        one_less,
        &[up, down, at_the_point],
    );
}

#[test]
fn ten_years_in_one_step(rt: HostRuntime) {
    let mut board = programmed(&rt, Policy::Delay, 0x34, 4);
    let years = 315_360_000_000_000_000;
    let rows = [
        counts(
            years,
            TickSource::Pit,
            94_070_468_879_999,
            1,
            94_070_468_879_998,
            0,
        ),
        (
            years,
            Access::PortOut {
                port: 0x70,
                byte: 7,
            },
            Value::Nothing,
        ),
        read(years, 0x71, 0x29),
    ];
    play(&rt, &mut board, &rows, &[(4191, 0, true)]);
}
