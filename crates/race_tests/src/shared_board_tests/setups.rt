//! A board that a test calls, and its passes.
ghost use Rattle.std.specs.Prelude.{◌≡◌, IfOk};
ghost use Rattle.clk_units.specs.Ranges.{IsKhz};
ghost use Rattle.board_history.specs.Machine.{page_at};

use super::lag::quiet_run;
use super::many::{met_inside, reads_beside, steps_of_two};
use super::words::read_round_an_update;
use super::{held_twice, read_by_one, stopped_twice};
use board_core::{BoardState, Setup};
use clock_table::{Blank, Name};
use shared_board::{Pass, SharedBoard, Stopped};
use std::alloc::Global;
use std::marker::Brand;
use std::process::Abort;
use std::sync::Wait;
use std::test::Fail;
use std::thread::Threads;
use tick_policy::Policy;

/// A board of two processors, and its passes.
#[derive(Drop)]
pub(crate) struct Ready<N: Name> {
    board: SharedBoard<N>,
    passes: Vec<Pass<N>>,
    ghost cpus: { N.state.cpus ≡ 2 },
}

impl<N: Name> Ready<N> {
    /// The board, and the last of its passes.
    pub(crate) fn one(self) -> Result<(SharedBoard<N>, Pass<N>), Fail> {
        let Ready { board, mut passes } = self;
        let one = passes.pop().ok_or("a pass")?;
        Ok((board, one))
    }

    /// The board, the last of its passes, and the one before it.
    pub(crate) fn two(self) -> Result<(SharedBoard<N>, Pass<N>, Pass<N>), Fail> {
        let Ready { board, mut passes } = self;
        let one = passes.pop().ok_or("a pass")?;
        let two = passes.pop().ok_or("a pass")?;
        Ok((board, one, two))
    }
}

/// What a test does with a board.
#[derive(Clone, Copy)]
pub(crate) enum Case {
    ReadByOne,
    StoppedTwice,
    HeldTwice,
    QuietRun,
    StepsOfTwo,
    ReadsBeside,
    MetInside,
    ReadRoundAnUpdate,
}

/// A host of 1 GHz and a guest of 2 GHz, both from 0, and two processors.
pub(crate) fn plain_board() -> BoardState
    ensures cpus { result.cpus ≡ 2 }
    ensures format { result.format ≡ 1 }
    ensures fresh { (page_at result 0).version ≡ 0 }
    ensures rate { IsKhz result.anchor.khz }
{
    BoardState::power_on(&Setup {
        guest_khz: 2_000_000,
        cpus: 2,
        pit: Policy::Discard,
        rtc: Policy::Discard,
        hpet: Policy::Discard,
        ..Setup::by_default(1)
    })
}

/// The words of a state, where there is memory.
pub(crate) fn blank_of(alloc: Global, state: &BoardState) -> Result<Blank, Fail>
    ensures { IfOk result (λ b. b.1 ≡ state.now) }
{
    match Blank::new(alloc, state) {
        Ok(blank) => Ok(blank),
        Err(_no_memory) => Err("no memory".into()),
    }
}

/// Runs a test on a board that opens with `state`, where there is memory.
pub(crate) fn test_on<R: Threads + Wait + Abort + Sync>(
    rt: &R,
    alloc: Global,
    case: Case,
    state: BoardState,
    passes: u8,
) -> Result<(), Fail>
    requires { state.cpus ≡ 2 }
{
    let blank = blank_of(alloc, &state)?;
    test_blank::<Brand, R>(rt, alloc, case, blank, &state, passes)
}

fn test_blank<N: Name + Send + Sync, R: Threads + Wait + Abort + Sync>(
    rt: &R,
    alloc: Global,
    case: Case,
    blank: Blank,
    state: &BoardState,
    passes: u8,
) -> Result<(), Fail>
    requires table { blank.0 ≡ N.table }
    requires blank { blank.1 ≡ N.state }
    requires state { state.now ≡ N.state }
    requires cpus { N.state.cpus ≡ 2 }
    requires passes { passes ≡ N.passes }
{
    let ready = match SharedBoard::<N>::new(alloc, blank, state, passes) {
        Ok((board, passes)) => Ready { board, passes },
        Err(_no_memory) => return Err("no memory".into()),
    };
    match case {
        Case::ReadByOne => read_by_one(rt, ready),
        Case::StoppedTwice => stopped_twice(rt, alloc, ready),
        Case::HeldTwice => held_twice(rt, ready),
        Case::QuietRun => quiet_run(rt, alloc, ready),
        Case::StepsOfTwo => steps_of_two(rt, alloc, ready),
        Case::ReadsBeside => reads_beside(rt, alloc, ready),
        Case::MetInside => met_inside(rt, ready),
        Case::ReadRoundAnUpdate => read_round_an_update(rt, ready),
    }
}

/// The board of a stopped board, to which both of its passes are given.
pub(crate) fn stopped<N: Name>(
    alloc: Global,
    board: SharedBoard<N>,
    one: Pass<N>,
    two: Pass<N>,
) -> Result<Box<BoardState>, Fail> {
    let mut passes = Vec::new(alloc);
    passes.push(one)?;
    passes.push(two)?;
    match board.stop(passes) {
        Ok(Stopped { state }) => Ok(state),
        Err(_out) => Err("all were given".into()),
    }
}
