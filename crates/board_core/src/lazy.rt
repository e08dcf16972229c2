//! A board that does nothing where nothing can be seen.
//!
//! Most steps of a monitor change no line and send no message. A read of the HPET's main counter, by which a guest tells
//! time, changes nothing at all, and a read of a port of the 8254 changes only what the next one gives. A lazy board answers
//! these by counting them: it keeps the count of the host's counter, and its devices stay where they were. Any other access
//! runs them to its own time, in one run. So it is at each moment the board that a plain one would be, and each of its calls
//! is a plain board's, with the same clauses.
//!
//! How far nothing comes is looked up after some such accesses in a row that brought no edge, since it costs as much as
//! the next edge, some eight runs. Any other access forgets it.
ghost use Rattle.std.specs.Prelude.{◌≡◌, ◌<◌, IsTrue, IsSome, Some, IfOk, IfErr, OnOk};
ghost use Rattle.std.specs.Bool.{OnTrue, OnFalse};
ghost use Rattle.host_counter.specs.Time.{time_fault};
ghost use Rattle.board_core.specs.Time.{now_of};
ghost use Rattle.host_counter.specs.Time.{HasTime};
ghost use Rattle.board_types.specs.Legal.{is_legal};
ghost use Rattle.board_core.specs.Refusals.{refusal_of};
ghost use Rattle.board_core.specs.Outcome.{IsAsked, HasTaken, IsRefused, IsPageRead, IsClockRead};
ghost use Rattle.board_core.specs.Hv.{hv_reply};

use crate::board::BoardState;
use crate::lag::{Lag, NO_LAG};
use board_types::{Access, Refusal, Reply};
use host_counter::TimeFault;
use hv_page::HvReply;
use pvclock_page::{ClockReply, PageReply};
use std::marker::Model;

/// A board whose devices may lag. Its value is a plain board's: how far it lags isn't seen.
#[derive(Drop)]
pub struct LazyBoard {
    /// The board as it was when its devices last ran, but with all accesses counted.
    board: BoardState,
    lag: Lag,
}

impl Model for LazyBoard {
    ghost use Rattle.board_types.specs.declared.parts.BoardParts.{BoardParts};
    ghost use Rattle.board_core.specs.Lazy.{caught_up, IsLazy};

    ghost Value = { BoardParts };

    ghost view = { λ l. caught_up l.board l.lag };

    ghost invariant = { λ l. IsLazy l.board l.lag.host l.lag.horizon };
}

impl LazyBoard {
    ghost use Rattle.std.specs.Borrow.{Lends, sem};
    ghost use Rattle.board_core.specs.contracts.lazy.LazyBoard.{the_row};
    ghost use Rattle.board_core.specs.contracts.board.BoardState.{the_row as board_row};

    /// A board that doesn't lag yet.
    pub fn new(board: BoardState) -> LazyBoard
        ensures { result ≡ board }
    {
        LazyBoard { board, lag: NO_LAG }
    }

    /// The board itself, brought up to its time. What its caller makes of it is the board from then on.
    #[inline(always)]
    pub fn state_mut(&mut self) -> &mut BoardState
        ensures* writes_back { sem 𝓛 (Lends the_row board_row self.entry result (λ b. b)) }
        ensures value { result.now ≡ self.old }
    {
        self.board.catch_up(&self.lag);
        self.lag = NO_LAG; // whatever its caller changes
        &mut self.board
    }

    /// Takes one access, unless it is refused, into a reply that its caller keeps, without edges and messages in it, as
    /// `BoardState::take` does it; `refusal` says why.
    #[inline(always)]
    pub fn take(&mut self, cpu: u8, h: u64, a: Access, reply: &mut Reply) -> bool
        requires { IsAsked self.old cpu a reply.old }
        ensures taken { OnTrue result (HasTaken self.old cpu h a self.new reply.new) }
        ensures left { OnFalse result (IsRefused self.old cpu h a self.new reply.old reply.new) }
    {
        self.board.take_lagging(&mut self.lag, cpu, h, a, reply)
    }

    /// Why an access is refused that is.
    #[cold]
    #[inline(never)]
    pub fn refusal(&self, cpu: u8, h: u64, a: Access) -> Refusal
        requires cpu { cpu < self.now.cpus }
        requires legal { IsTrue (is_legal self.now.cpus self.now.format a) }
        requires refused { IsSome (refusal_of self.now cpu h a) }
        ensures { refusal_of self.now cpu h a ≡ Some result }
    {
        self.board.refusal(cpu, h, a)
    }

    /// How many processors there are.
    pub fn cpus(&self) -> u8
        ensures { result ≡ self.now.cpus }
    {
        self.board.cpus()
    }

    /// The time in nanoseconds: that of the greatest count of all accesses.
    pub fn now(&self) -> u64
        ensures { result ≡ now_of self.now }
    {
        self.board.lagging_now(&self.lag)
    }

    /// The greatest clock reading of all, in nanoseconds.
    pub fn greatest(&self) -> u64
        ensures { result ≡ self.now.greatest }
    {
        self.board.greatest()
    }

    /// What a read of the page of `cpu` at count `h` answers.
    #[inline(always)]
    pub fn page_of(&self, cpu: u8, h: u64) -> Result<PageReply, TimeFault>
        requires { cpu < self.now.cpus }
        ensures { IsPageRead self.now cpu h result }
    {
        self.board.page_of(cpu, h)
    }

    /// What a read of the clock by the page of `cpu` at count `h` answers.
    #[inline(always)]
    pub fn clock_of(&mut self, cpu: u8, h: u64) -> Result<ClockReply, TimeFault>
        requires { cpu < self.old.cpus }
        ensures { IsClockRead self.old cpu h result self.new }
    {
        self.board.lagging_clock_of(&self.lag, cpu, h)
    }

    /// What a read of the reference page at count `h` answers.
    #[inline(always)]
    pub fn hv_of(&self, h: u64) -> Result<HvReply, TimeFault>
        ensures ok { OnOk result (HasTime self.now.anchor h) }
        ensures value { IfOk result (λ r. r ≡ hv_reply self.now h) }
        ensures fault { IfErr result (λ f. time_fault self.now.anchor h ≡ Some f) }
    {
        self.board.hv_of(h)
    }
}
