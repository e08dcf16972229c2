//! Calls on a shared board by one thread and by two.
ghost use Rattle.std.specs.Prelude.{◌<◌, IsTrue};
ghost use Rattle.board_types.specs.Legal.{is_legal};

mod lag;
mod many;
mod setups;
mod words;

use crate::checks::same;
use board_core::{Access, MSR_KVM_SYSTEM_TIME, Reply};
use board_io::OpenGate;
use clock_table::Name;
use host_counter::TimeFault;
use pvclock_page::{ClockReply, Page, PageReply};
use setups::{Case, Ready, plain_board, stopped, test_on};
use shared_board::{Asked, LockedFault, PageFault, Pass, PassesOut, Read, ReadReply, SharedBoard};
use std::alloc::Global;
use std::process::Abort;
use std::sync::Wait;
use std::test::Fail;

/// The page of a processor that enabled it at count 0.
const ENABLED: Page = Page {
    version: 2,
    tsc_timestamp: 0,
    system_time: 0,
    mul: 0x8000_0000,
    shift: 0,
    flags: 1,
    offset: 0,
    enabled: true,
};

/// The number of an access, 0 where it is refused.
fn number<N: Name>(
    rt: &impl Wait,
    board: &SharedBoard<N>,
    pass: &mut Pass<N>,
    cpu: u8,
    h: u64,
    a: Access,
) -> u64
    requires cpu { cpu < N.state.cpus }
    requires legal { IsTrue (is_legal N.state.cpus N.state.format a) }
{
    let asked = Asked { cpu, h, access: a };
    match board.access(rt, &OpenGate, pass, asked) {
        Ok(reply) => reply.number,
        Err(_refusal) => 0,
    }
}

/// Enables and publishes the page of a processor, at count 0.
const ENABLE: Access = Access::MsrWrite {
    msr: MSR_KVM_SYSTEM_TIME,
    value: 1,
};

/// A clock that was read.
fn clock_is(reading: u64, clock: u64) -> ReadReply {
    ReadReply::Clock {
        reply: ClockReply::On { reading, clock },
    }
}

#[test]
fn pages_and_clocks_by_one_pass(rt: HostRuntime) -> Result<(), Fail> {
    test_on(&rt, rt.alloc(), Case::ReadByOne, plain_board(), 1)
}

/// One pass reads pages and clocks in each way.
fn read_by_one<N: Name, R: Wait + Abort>(rt: &R, ready: Ready<N>) -> Result<(), Fail> {
    let (board, mut pass) = ready.one()?;
    same(rt, "page 0", number(rt, &board, &mut pass, 0, 0, ENABLE), 1);
    same(rt, "page 1", number(rt, &board, &mut pass, 1, 0, ENABLE), 2);
    let clock = clock_is(1_000, 1_000);
    let of_clock = Read::Clock { cpu: 0 };
    let read = board.read(rt, &mut pass, of_clock, 1_000);
    same(rt, "read, the clock", read, Ok(clock));
    let page = ReadReply::Page {
        reply: PageReply::On {
            page: ENABLED,
            reading: 900,
        },
    };
    let of_page = Read::Page { cpu: 1 };
    let tried = board.try_read(&mut pass, of_page, 900);
    same(rt, "try_read, a page", tried, Ok(page));
    let read = board.read(rt, &mut pass, of_page, 900);
    same(rt, "read, a page", read, Ok(page));
    let by_other = board.try_read(&mut pass, Read::Clock { cpu: 1 }, 900);
    let clamped = clock_is(900, 1_000);
    same(rt, "try_read, the clock", by_other, Ok(clamped));
    read_past_the_range(rt, &board, &mut pass);
    Ok(())
}

/// No page is read at a count whose time is past the range.
fn read_past_the_range<N: Name, R: Wait + Abort>(rt: &R, board: &SharedBoard<N>, pass: &mut Pass<N>)
    requires { 0 < N.state.cpus }
{
    let past = TimeFault::OutOfRange {
        ns: u128::from(u64::MAX),
    };
    let of_page = Read::Page { cpu: 0 };
    let tried = board.try_read(pass, of_page, u64::MAX);
    same(rt, "try_read", tried, Err(PageFault::NoTime(past)));
    let read = board.read(rt, pass, of_page, u64::MAX);
    same(rt, "read", read, Err(LockedFault::NoTime(past)));
}

#[test]
fn a_board_stops_with_all_its_passes(rt: HostRuntime) -> Result<(), Fail> {
    let mut state = plain_board();
    state.set_greatest(1_000);
    test_on(&rt, rt.alloc(), Case::StoppedTwice, state, 2)
}

/// A board that is stopped while a pass is out, and then with both.
fn stopped_twice<N: Name, R: Wait + Abort>(
    rt: &R,
    alloc: Global,
    ready: Ready<N>,
) -> Result<(), Fail> {
    let (board, mut pass, other) = ready.two()?;
    same(rt, "the pass", pass.number(), 1);
    same(rt, "page 0", number(rt, &board, &mut pass, 0, 5, ENABLE), 1);
    let tried = board.try_read(&mut pass, Read::Clock { cpu: 0 }, 900);
    same(rt, "try_read, the clock", tried, Ok(clock_is(900, 1_000)));
    let mut others = Vec::new(alloc);
    others.push(other)?;
    let PassesOut {
        given,
        made,
        board,
        mut passes,
    } = match board.stop(others) {
        Ok(_stopped) => return Err("a pass was out".into()),
        Err(out) => out,
    };
    same(rt, "passes", (given, made), (1, 2));
    let other = passes.pop().ok_or("a pass")?;
    let state = stopped(alloc, board, other, pass)?;
    same(
        rt,
        "the state",
        (state.accesses(), state.greatest()),
        (1, 1_000),
    );
    Ok(())
}

#[test]
fn two_accesses_under_one_lock(rt: HostRuntime) -> Result<(), Fail> {
    test_on(&rt, rt.alloc(), Case::HeldTwice, plain_board(), 1)
}

/// The lock is kept for two accesses.
fn held_twice<N: Name, R: Wait + Abort>(rt: &R, ready: Ready<N>) -> Result<(), Fail> {
    let (board, mut pass) = ready.one()?;
    let mut one = Reply::empty();
    let mut two = Reply::empty();
    let mut holding = board.hold(rt);
    let step = Asked {
        cpu: 0,
        h: 5,
        access: Access::Step,
    };
    let enable = Asked {
        cpu: 1,
        h: 5,
        access: ENABLE,
    };
    let first = holding.answer(rt, &OpenGate, &mut pass, step, &mut one);
    let second = holding.answer(rt, &OpenGate, &mut pass, enable, &mut two);
    drop(holding);
    same(rt, "accesses", (first, second), (Ok(()), Ok(())));
    same(rt, "numbers", (one.number, two.number), (1, 2));
    same(
        rt,
        "after them",
        number(rt, &board, &mut pass, 0, 5, Access::Step),
        3,
    );
    Ok(())
}
