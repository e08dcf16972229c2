//! The board under the lock, whose devices run where they are needed.
ghost use Rattle.std.specs.Prelude.{◌≡◌, ◌≤◌, IfOk};
ghost use Rattle.board_core.specs.Lazy.{caught_up, IsLazy};
ghost use Rattle.board_core.specs.Outcome.{IsAsked, IsOutcome};
ghost use Rattle.board_history.specs.Machine.{page_at};

use board_core::{BoardState, Lag, NO_LAG, Refusal, Reply};
use board_history::table_page;
use clk_units::NoMemory;
use clock_table::Asked;
use pvclock_page::Page;
use std::alloc::Global;
use std::marker::Model;

/// A board in a box, whose devices may lag. Its value is a plain board's: how far it lags isn't seen.
#[derive(Drop)]
pub(crate) struct LazyBox {
    /// The board as it was when its devices last ran, but with all accesses counted.
    board: Box<BoardState>,
    lag: Lag,
}

impl Model for LazyBox {
    ghost use Rattle.board_types.specs.declared.parts.BoardParts.{BoardParts};
    ghost use Rattle.board_core.specs.Lazy.{caught_up, IsLazy};

    ghost Value = { BoardParts };

    ghost view = { λ l. caught_up l.board.value l.lag };

    ghost invariant = { λ l. IsLazy l.board.value l.lag.host l.lag.horizon };
}

impl LazyBox {
    /// A copy of a board, which doesn't lag yet.
    #[inline(never)]
    pub(crate) fn new(alloc: Global, state: &BoardState) -> Result<LazyBox, NoMemory>
        ensures { IfOk result (λ b. b ≡ state.now) }
    {
        match Box::new(alloc, *state) {
            Ok(board) => Ok(LazyBox { board, lag: NO_LAG }),
            Err(_full) => Err(NoMemory),
        }
    }

    /// One access, as `BoardState::answer` answers it. A passive one is only counted where nothing can be seen.
    #[inline(always)]
    pub(crate) fn answer(&mut self, asked: Asked, reply: &mut Reply) -> Result<(), Refusal>
        requires { IsAsked self.old asked.cpu asked.access reply.old }
        ensures { IsOutcome self.old asked.cpu asked.h asked.access result self.new reply.old reply.new }
    {
        answer_lagging(&mut self.board, &mut self.lag, asked, reply)
    }

    /// How many processors there are.
    #[inline]
    pub(crate) fn cpus(&self) -> u8
        ensures { result ≡ self.now.cpus }
    {
        self.board.cpus()
    }

    /// The page at this place of the table. No run of the devices changes it.
    pub(crate) fn table_page(&self, index: u8) -> Page
        requires { index ≤ self.now.cpus }
        ensures { result ≡ page_at self.now index }
    {
        table_page(&self.board, index)
    }

    /// The board itself, brought up to its time.
    pub(crate) fn into_board(self) -> Box<BoardState>
        ensures { result.value ≡ self }
    {
        let LazyBox { mut board, lag } = self;
        board.catch_up(&lag);
        board
    }
}

/// One access to a board that may lag so far.
#[inline(always)]
fn answer_lagging(
    board: &mut BoardState,
    lag: &mut Lag,
    asked: Asked,
    reply: &mut Reply,
) -> Result<(), Refusal>
    requires lazy { IsLazy board.old lag.old.host lag.old.horizon }
    requires asked { IsAsked (caught_up board.old lag.old) asked.cpu asked.access reply.old }
    ensures outcome { IsOutcome (caught_up board.old lag.old) asked.cpu asked.h asked.access result
        (caught_up board.new lag.new) reply.old reply.new }
    ensures lazy { IsLazy board.new lag.new.host lag.new.horizon }
{
    let Asked { cpu, h, access } = asked;
    if board.take_lagging(lag, cpu, h, access, reply) {
        return Ok(());
    }
    Err(board.refusal(cpu, h, access))
}
