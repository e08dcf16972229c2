//! Accesses that a board refuses, each of which leaves it as it is.
use super::{MIDNIGHT, board, setup};
use crate::boards::ask;
use crate::checks::{holds, same};
use board_core::{
    Access, BoardState, LAST_VERSION, MSR_KVM_SYSTEM_TIME, MSR_KVM_WALL_CLOCK, MSR_TSC, Refusal,
    Setup,
};
use host_counter::{Anchor, TimeFault};
use std::process::Abort;
use tick_policy::Policy;

/// What a legal access of processor 0 is refused with.
fn refusal(rt: &impl Abort, board: &mut BoardState, h: u64, access: Access) -> Option<Refusal> {
    if board.cpus() == 0 || !access.legal(board.cpus(), board.format()) {
        panic!(rt; "{access:?} isn't legal");
    }
    board.access(0, h, access).err()
}

#[test]
fn refusals_leave_the_board(rt: HostRuntime) {
    let late = Setup {
        anchor: Anchor {
            khz: 1_000_000,
            start: 100,
            base_ns: 5,
        },
        ..setup(1, Policy::Delay, MIDNIGHT)
    };
    let mut board = BoardState::power_on(&late);
    let last = 100 + (1 << 59) - 6;
    let rows = [
        (
            99,
            Some(Refusal::NoTime(TimeFault::BeforeStart { start: 100 })),
        ),
        (
            last + 1,
            Some(Refusal::NoTime(TimeFault::OutOfRange { ns: 1 << 59 })),
        ),
        (100, None),
        (last, None),
    ];
    for (h, wanted) in rows {
        let before = (board.now(), board.accesses());
        same(&rt, h, refusal(&rt, &mut board, h, Access::Step), wanted);
        let after = (board.now(), board.accesses());
        holds(&rt, h, wanted.is_none() || before == after);
    }
    if board.cpus() == 0 {
        panic!(rt; "no processor");
    }
    let read = board.page_of(0, 99).err();
    let early = TimeFault::BeforeStart { start: 100 };
    same(&rt, "its page", read, Some(early));
}

/// A board after one access, whose page has this version, the wall clock's words that one, and so many accesses.
fn worn(rt: &impl Abort, version: u32, wall_version: u32, accesses: u64) -> BoardState {
    let mut board = board(Policy::Delay);
    ask(rt, &mut board, 0, ENABLE);
    let mut parts = board.parts();
    parts.processors[0].version = version;
    parts.wall_version = wall_version;
    parts.accesses = accesses;
    BoardState::of_parts(parts).expect(rt, "a board")
}

/// The page of the processor is enabled.
const ENABLE: Access = Access::MsrWrite {
    msr: MSR_KVM_SYSTEM_TIME,
    value: 1,
};

/// The words of the wall clock are published.
const WORDS: Access = Access::MsrWrite {
    msr: MSR_KVM_WALL_CLOCK,
    value: 1,
};

/// What an access at 7 of a worn board is refused with; where it is, all that can be read of the board stays.
fn worn_refusal(rt: &impl Abort, mut board: BoardState, access: Access) -> Option<Refusal> {
    let before = board.parts();
    let refusal = refusal(rt, &mut board, 7, access);
    let after = board.parts();
    if refusal.is_some() {
        let rows = [
            (after.host, before.host),
            (after.accesses, before.accesses),
            (after.wall_number, before.wall_number),
            (after.wall_version.into(), before.wall_version.into()),
        ];
        for (seen, wanted) in rows {
            same(rt, access, seen, wanted);
        }
        same(rt, access, after.processors, before.processors);
    }
    refusal
}

#[test]
fn versions_are_spent(rt: HostRuntime) {
    let spent = Some(Refusal::VersionsSpent {
        version: 4_294_967_294,
    });
    let tsc = Access::MsrWrite {
        msr: MSR_TSC,
        value: 0,
    };
    let rows = [
        (LAST_VERSION, 0, Access::Refresh { page: 0 }, spent),
        (LAST_VERSION, 0, ENABLE, spent),
        (LAST_VERSION, 0, tsc, spent),
        (LAST_VERSION, 0, WORDS, None),
        (LAST_VERSION, 0, Access::Step, None),
        (LAST_VERSION - 2, 0, Access::Refresh { page: 0 }, None),
        (2, LAST_VERSION, WORDS, spent),
        (2, LAST_VERSION, ENABLE, None),
        (2, LAST_VERSION, Access::Wall, None),
        (2, LAST_VERSION - 2, WORDS, None),
    ];
    for (version, wall_version, access, wanted) in rows {
        let board = worn(&rt, version, wall_version, 9);
        let row = (version, wall_version, access);
        same(&rt, row, worn_refusal(&rt, board, access), wanted);
    }
}

#[test]
fn accesses_are_spent(rt: HostRuntime) {
    let number = 4_611_686_018_427_387_904;
    let versions = Some(Refusal::VersionsSpent {
        version: 4_294_967_294,
    });
    let spent = Some(Refusal::Spent { number });
    let rows = [
        (2, number, Access::Step, spent),
        (2, number, Access::Refresh { page: 0 }, spent),
        (LAST_VERSION, number, Access::Refresh { page: 0 }, versions),
        (2, number - 1, Access::Step, None),
    ];
    for (version, accesses, access, wanted) in rows {
        let board = worn(&rt, version, 0, accesses);
        let row = (version, accesses, access);
        same(&rt, row, worn_refusal(&rt, board, access), wanted);
    }
}
