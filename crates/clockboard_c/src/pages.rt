//! The pages of the paravirtual clock, and the clock by them.
ghost use Rattle.std.specs.Prelude.{◌≡◌, ◌<◌};
ghost use Rattle.board_core.specs.Lazy.{caught_up, IsLazy};
ghost use Rattle.board_core.specs.Time.{now_of};
ghost use Rattle.clockboard_c.specs.Kept.{seen};
ghost use Rattle.clockboard_c.specs.Replies.{IsReply};
ghost use Rattle.clockboard_c.specs.Look.{processor_code};
ghost use Rattle.clockboard_c.specs.Pages.{
  page_words,
  page_after,
  clock_code,
  clock_told,
  board_after_clock,
  clock_by,
  state_after_clock,
};

use crate::board::{Board, SEAL};
use crate::code::{NO_BOARD, NO_PROCESSOR, OK, PAGE_OFF, SHARED, time_code};
use crate::reply::ReplyWords;
use board_core::{BoardState, Lag};
use pvclock_page::{ClockReply, page_bytes};

/// A page as plain numbers, `struct clockboard_page` of the header.
#[derive(Clone, Copy)]
#[repr(C)]
pub struct PageWords {
    /// Where the guest wants the page: the number in MSR_KVM_SYSTEM_TIME without its bit 0.
    pub guest_address: u64,
    /// 1 where the guest has enabled the page, else 0.
    pub enabled: u32,
    /// The version: even, and 0 before the first publishing.
    pub version: u32,
    /// The page as the guest sees it, `struct pvclock_vcpu_time_info` of Linux.
    pub bytes: [u8; 32],
}

/// The page of a processor. Behind a code other than `OK` the memory stays as it is.
#[unsafe(no_mangle)]
#[tactic(auto, unfolding(board_core::specs::Access::after_run))]
pub extern "C" fn clockboard_page(board: &Board, cpu: u8, page: &mut PageWords) -> u32
    ensures code { result ≡ processor_code (seen board.now) cpu }
    ensures page { page.new ≡ page_after (seen board.now) cpu page.old }
{
    if board.seal != SEAL {
        return NO_BOARD;
    }
    if cpu >= board.state.cpus() {
        return NO_PROCESSOR;
    }
    *page = page_words(&board.state, cpu);
    OK
}

/// The page of a processor that is there.
fn page_words(state: &BoardState, cpu: u8) -> PageWords
    requires { cpu < state.now.cpus }
    ensures { result ≡ page_words state.now cpu }
{
    let page = state.page(cpu);
    let number = state.page_number(cpu);
    PageWords {
        guest_address: number - number % 2,
        enabled: if page.enabled { 1 } else { 0 },
        version: page.version as u32,
        bytes: page_bytes(&page),
    }
}

/// The time that a guest's clock reads at count `host`: the greater of what its page gives and of all that was told.
/// It moves no time and takes no number. The reply's value has the clock and the page's own reading, in nanoseconds.
#[unsafe(no_mangle)]
pub extern "C" fn clockboard_clock(board: &mut Board, cpu: u8, host: u64, reply: &mut ReplyWords)
    ensures reply { IsReply reply.old reply.new (clock_told (seen board.old) cpu host) }
    ensures board { seen board.new ≡ board_after_clock (seen board.old) cpu host }
{
    let code = clock_code(board, cpu);
    if code != OK {
        reply.refuse(code);
        return;
    }
    read_clock(board, cpu, host, reply);
}

/// The clock of a processor that is there, of a board that no threads share.
fn read_clock(board: &mut Board, cpu: u8, host: u64, reply: &mut ReplyWords)
    requires { cpu < (seen board.old).state.cpus }
    ensures reply { IsReply reply.old reply.new (clock_by (seen board.old).state cpu host) }
    ensures board { seen board.new
        ≡ record (seen board.old) { state = state_after_clock (seen board.old).state cpu host } }
{
    tell_clock(&mut board.state, &board.lag, board.now_ns, cpu, host, reply);
}

/// The code of a question about the clock of a processor.
#[tactic(auto, unfolding(board_core::specs::Access::after_run))]
fn clock_code(board: &Board, cpu: u8) -> u32
    ensures { result ≡ clock_code (seen board.now) cpu }
{
    if board.seal != SEAL {
        NO_BOARD
    } else if board.shared {
        SHARED
    } else if cpu >= board.state.cpus() {
        NO_PROCESSOR
    } else {
        OK
    }
}

/// What the clock of a processor reads that is there, of a board that lags, whose time is known.
#[tactic(auto, unfolding(board_core::specs::Pages::after_clock))]
fn tell_clock(
    state: &mut BoardState,
    lag: &Lag,
    now_ns: u64,
    cpu: u8,
    host: u64,
    reply: &mut ReplyWords,
)
    requires lazy { IsLazy state.old lag.now.host lag.now.horizon }
    requires now { now_ns ≡ now_of (caught_up state.old lag.now) }
    requires cpu { cpu < (caught_up state.old lag.now).cpus }
    ensures reply { IsReply reply.old reply.new (clock_by (caught_up state.old lag.now) cpu host) }
    ensures state { caught_up state.new lag.now
        ≡ state_after_clock (caught_up state.old lag.now) cpu host }
    ensures lazy { IsLazy state.new lag.now.host lag.now.horizon }
{
    match state.lagging_clock_of(lag, cpu, host) {
        Ok(ClockReply::On { reading, clock }) => {
            reply.put_head(OK, 0, now_ns, [clock, reading, 0, 0]);
        }
        Ok(ClockReply::Off) => reply.refuse(PAGE_OFF),
        Err(fault) => reply.refuse(time_code(fault)),
    }
}
