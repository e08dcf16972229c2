//! The TSC, the pages and the clock of the processors, and a move.
use super::{MIDNIGHT, board, counts, out, play, setup};
use crate::boards::{ask_by, clock, page};
use crate::checks::same;
use board_core::{
    Access, BoardState, MSR_KVM_SYSTEM_TIME, MSR_KVM_WALL_CLOCK, MSR_TSC, MSR_TSC_ADJUST, Setup,
    TickSource, Value,
};
use irq_edges::Edge;
use pvclock_page::{ClockReply, PageReply};
use std::process::Abort;
use tick_policy::Policy;

/// A read of an MSR at a count.
const fn rdmsr(h: u64, msr: u32, value: u64) -> (u64, Access, Value) {
    (h, Access::MsrRead { msr }, Value::Word { width: 8, value })
}

/// A write of an MSR at a count.
const fn wrmsr(h: u64, msr: u32, value: u64) -> (u64, Access, Value) {
    (h, Access::MsrWrite { msr, value }, Value::Nothing)
}

#[test]
fn tsc_adjust_moves_with_the_tsc(rt: HostRuntime) {
    let mut board = board(Policy::Delay);
    let words = Value::Wall {
        version: 2,
        sec: 11,
        nsec: 12,
    };
    let none = Value::Wall {
        version: 0,
        sec: 0,
        nsec: 0,
    };
    let rows = [
        wrmsr(1_000, MSR_TSC, 0),
        rdmsr(1_500, MSR_TSC, 0x1f4),
        rdmsr(1_500, MSR_TSC_ADJUST, 0xffff_ffff_ffff_fc18),
        wrmsr(1_500, MSR_TSC_ADJUST, 0),
        rdmsr(1_500, MSR_TSC, 0x5dc),
        (1_500, Access::Wall, none),
        wrmsr(1_500, MSR_KVM_WALL_CLOCK, 0x1234),
        rdmsr(1_500, MSR_KVM_WALL_CLOCK, 0x1234),
        (1_500, Access::Wall, words),
    ];
    play(&rt, &mut board, &rows, &[]);
    same(&rt, "processors", board.cpus(), 1);
    same(&rt, "version", page(&rt, &board).version, 4);
}

/// The page of processor 1 of a guest of 2 GHz, published at 0, and what it reads at 900.
fn reads_its_page(rt: &impl Abort, board: &BoardState) {
    if board.cpus() != 2 {
        panic!(rt; "two processors");
    }
    let Ok(PageReply::On { page, reading }) = board.page_of(1, 900) else {
        panic!(rt; "the page is on");
    };
    let publishing = (page.version, page.tsc_timestamp, page.flags);
    same(rt, "page", publishing, (2, 0, 1));
    let scale = (page.mul, page.shift, reading);
    same(rt, "scale", scale, (0x8000_0000, 0, 900));
}

/// The clock of a processor is 1000 at the count of a reading of this many nanoseconds.
fn tells_1000(rt: &impl Abort, board: &mut BoardState, cpu: u8, reading: u64) {
    let told = ClockReply::On {
        reading,
        clock: 1_000,
    };
    same(rt, reading, clock(rt, board, cpu, reading), told);
}

#[test]
fn no_clock_tells_less_than_one_before_it(rt: HostRuntime) {
    let two = Setup {
        cpus: 2,
        guest_khz: 2_000_000,
        ..setup(1, Policy::Delay, MIDNIGHT)
    };
    let mut board = BoardState::power_on(&two);
    same(&rt, 500, clock(&rt, &mut board, 0, 500), ClockReply::Off);
    let enable = Access::MsrWrite {
        msr: MSR_KVM_SYSTEM_TIME,
        value: 1,
    };
    for cpu in [0, 1] {
        let _ = ask_by(&rt, &mut board, cpu, 0, enable);
    }
    tells_1000(&rt, &mut board, 0, 1_000);
    reads_its_page(&rt, &board);
    tells_1000(&rt, &mut board, 1, 900);
    same(&rt, "greatest", board.greatest(), 1_000);
    same(&rt, "time", (board.now(), board.accesses()), (0, 2));
}

#[test]
fn a_move_to_a_faster_host(rt: HostRuntime) {
    let fast = Setup {
        guest_khz: 2_000_000,
        ..setup(1, Policy::Delay, MIDNIGHT)
    };
    let mut board = BoardState::power_on(&fast);
    let rows = [
        out(0x43, 0x34),
        out(0x40, 0),
        out(0x40, 0),
        wrmsr(0, MSR_KVM_SYSTEM_TIME, 1),
        (2_000, Access::Step, Value::Nothing),
    ];
    play(&rt, &mut board, &rows, &[]);
    if board.now() != 2_000 || board.cpus() != 1 {
        panic!(&rt; "a board of one processor at 2000");
    }
    let ran = board.reanchor(3_000_000, 500, 1_000_000_000);
    let rise = Edge {
        at: 54_926_240,
        line: 0,
        up: true,
    };
    same(&rt, "edges", ran.edges.as_slice(), [rise].as_slice());
    same(&rt, "time", board.now(), 1_000_002_000);
    same(&rt, "accesses", board.accesses(), 5);
    let rows = [counts(500, TickSource::Pit, 18, 1, 17, 0)];
    play(&rt, &mut board, &rows, &[]);
}
