//! A move worked out by hand, its refusals, and what it keeps.

ghost use Rattle.clk_units.specs.Ranges.{IsKhz};
ghost use Rattle.board_types.specs.Setup.{IsSetup};

use crate::boards::{ask, clock, page};
use crate::checks::same;
use board_core::{
    Access, BoardState, LAST_VERSION, MSR_KVM_SYSTEM_TIME, MSR_TSC_ADJUST, Setup, TickSource, Value,
};
use irq_edges::Edge;
use pvclock_page::{ClockReply, Page};
use std::process::Abort;
use tick_policy::Counts;
use transfer::{MoveFault, Moved, moved};

/// A host of 1 GHz, a guest of 2 GHz, and one processor.
fn setup() -> Setup
    ensures { IsSetup result }
{
    Setup {
        guest_khz: 2_000_000,
        ..Setup::by_default(1)
    }
}

/// A board of 2000 ns whose 8254 counts 65536 in mode 2, and whose page is enabled.
fn running(rt: &impl Abort) -> BoardState {
    let mut board = BoardState::power_on(&setup());
    for (port, byte) in [(0x43, 0x34), (0x40, 0), (0x40, 0)] {
        let _ = ask(rt, &mut board, 0, Access::PortOut { port, byte });
    }
    let enable = Access::MsrWrite {
        msr: MSR_KVM_SYSTEM_TIME,
        value: 1,
    };
    let _ = ask(rt, &mut board, 0, enable);
    let _ = clock(rt, &mut board, 0, 1_000);
    let _ = ask(rt, &mut board, 2_000, Access::Step);
    board
}

/// The board after a move that isn't refused.
fn taken(rt: &impl Abort, board: &BoardState, khz: u64, start: u64, gap: u64) -> Moved
    requires { IsKhz khz }
{
    match moved(board, khz, start, gap) {
        Ok(moved) => moved,
        Err(fault) => panic!(rt; "{fault:?}"),
    }
}

/// The version of a page, and the TSC and the time at which it was published.
fn publishing(page: &Page) -> (u64, u64, u64) {
    (page.version, page.tsc_timestamp, page.system_time)
}

/// The numbers of a board of 2000 ns that was moved over a second, after its one edge.
fn goes_on(rt: &impl Abort, board: &mut BoardState) {
    let rows = [
        ("time", board.now(), 1_000_002_000),
        ("accesses", board.accesses(), 5),
        ("greatest", board.greatest(), 1_000),
    ];
    for (row, seen, wanted) in rows {
        same(rt, row, seen, wanted);
    }
    let clock_told = ClockReply::On {
        reading: 1_000_003_000,
        clock: 1_000_003_000,
    };
    same(rt, "clock", clock(rt, board, 0, 3_500), clock_told);
}

/// Its page as the move published it, and as it is published again.
fn tells_the_move(rt: &impl Abort, board: &mut BoardState) {
    let told = page(rt, board);
    let by_the_move = (4, 2_000_004_000, 1_000_002_000);
    same(rt, "by the move", publishing(&told), by_the_move);
    same(rt, "its scale", (told.mul, told.shift), (0x8000_0000, 0));
    same(rt, "its flags", told.flags, 3);
    let _ = ask(rt, board, 3_500, Access::Refresh { page: 0 });
    let told = page(rt, board);
    let by_refresh = (6, 2_000_006_000, 1_000_003_000);
    same(rt, "refreshed", publishing(&told), by_refresh);
    same(rt, "flags after it", told.flags, 1);
}

#[test]
fn a_move_to_3_ghz_over_a_second(rt: HostRuntime) {
    let before = running(&rt);
    let moved = taken(&rt, &before, 3_000_000, 500, 1_000_000_000);
    let first = Edge {
        at: 54_926_240,
        line: 0,
        up: true,
    };
    same(&rt, "edges", moved.edges.as_slice(), [first].as_slice());
    same(&rt, "time before", before.now(), 2_000);
    let mut board = moved.state;
    goes_on(&rt, &mut board);
    tells_the_move(&rt, &mut board);
    let counts = Counts {
        due: 18,
        rises: 1,
        queue: 17,
        lost: 0,
    };
    let from = TickSource::Pit;
    let reply = ask(&rt, &mut board, 3_500, Access::CountsOf { from });
    same(&rt, "ticks", reply.value, Value::Counts(counts));
}

#[test]
fn tsc_adjust_is_kept(rt: HostRuntime) {
    let mut board = running(&rt);
    let msr = MSR_TSC_ADJUST;
    let _ = ask(&rt, &mut board, 2_000, Access::MsrWrite { msr, value: 77 });
    let mut board = taken(&rt, &board, 1_000_000, 0, 0).state;
    let value = Value::Word {
        width: 8,
        value: 77,
    };
    let reply = ask(&rt, &mut board, 0, Access::MsrRead { msr });
    same(&rt, "adjust", reply.value, value);
}

#[test]
fn a_move_past_the_range_is_refused(rt: HostRuntime) {
    let board = running(&rt);
    let last = (1 << 59) - 1 - board.now();
    let past = [
        (last + 1, 1 << 59),
        (u64::MAX, u128::from(u64::MAX) + 2_000),
    ];
    for (gap, ns) in past {
        let fault = moved(&board, 1_000_000, 0, gap).err();
        same(&rt, gap, fault, Some(MoveFault::OutOfRange { ns }));
    }
    let state = taken(&rt, &board, 1_000_000, 0, last).state;
    same(&rt, last, state.now(), (1 << 59) - 1);
}

/// A board as above whose page has another version.
fn worn(rt: &impl Abort, version: u32) -> BoardState {
    let mut parts = running(rt).parts();
    parts.processors[0].version = version;
    BoardState::of_parts(parts).expect(rt, "a board")
}

#[test]
fn a_page_at_its_last_version_refuses_the_move(rt: HostRuntime) {
    let board = worn(&rt, LAST_VERSION);
    let fault = MoveFault::VersionsSpent {
        cpu: 0,
        version: 4_294_967_294,
    };
    let found = moved(&board, 3_000_000, 500, 1_000_000_000).err();
    same(&rt, LAST_VERSION, found, Some(fault));
}

#[test]
fn a_page_two_versions_before_the_last_moves(rt: HostRuntime) {
    let board = worn(&rt, LAST_VERSION - 2);
    let state = taken(&rt, &board, 3_000_000, 500, 1_000_000_000).state;
    let version = page(&rt, &state).version;
    same(&rt, LAST_VERSION, version, u64::from(LAST_VERSION));
}
