//! Hyper-V's reference page, and the time that it gives.
ghost use Rattle.std.specs.Prelude.{◌≡◌, OnOk, IfOk, IfErr};
ghost use Rattle.host_counter.specs.Time.{time_fault};
ghost use Rattle.board_core.specs.Lazy.{caught_up};
ghost use Rattle.board_core.specs.Time.{now_of};
ghost use Rattle.host_counter.specs.Time.{HasTime};
ghost use Rattle.board_core.specs.Hv.{hv_reply};
ghost use Rattle.clockboard_c.specs.Kept.{seen};
ghost use Rattle.clockboard_c.specs.Replies.{IsReply};
ghost use Rattle.clockboard_c.specs.Hv.{
  hv_code,
  hv_words,
  hv_in_memory,
  hv_time_by,
  hv_time_told,
};

use crate::board::{Board, SEAL};
use crate::code::{NO_BOARD, NOT_OURS, OK, PAGE_OFF, time_code};
use crate::reply::ReplyWords;
use board_core::{BoardState, Lag};
use board_types::HV_FORMAT;
use clk_units::bit;
use host_counter::TimeFault;
use hv_page::{HvReply, guest_sequence, page_bytes};

/// How many bytes the guest's page has.
const PAGE_SIZE: u64 = 4096;

/// Hyper-V's reference page as plain numbers, `struct clockboard_hv_page` of the header.
#[derive(Clone, Copy)]
#[repr(C)]
pub struct HvWords {
    /// Where the guest wants the page: the number in MSR 40000021h without its low 12 bits.
    pub guest_address: u64,
    /// 1 where the guest has enabled the page, else 0.
    pub enabled: u32,
    /// `TscSequence`: 0 where the page isn't enabled.
    pub sequence: u32,
    /// The fields of `HV_REFERENCE_TSC_PAGE` as the guest sees them; the bytes after them are 0.
    pub bytes: [u8; 24],
}

/// The reference page. After a code other than `OK` the memory stays as it is.
#[unsafe(no_mangle)]
#[tactic(auto, unfolding(board_core::specs::Access::after_run))]
pub extern "C" fn clockboard_hv_page(board: &Board, page: &mut HvWords) -> u32
    ensures code { result ≡ hv_code (seen board.now) }
    ensures page { page.new ≡ hv_in_memory (seen board.now) page.old }
{
    let code = hv_code(board);
    if code == OK {
        *page = hv_words(&board.state);
    }
    code
}

/// The code of a question about the reference page, which a board has from format 4 on.
#[tactic(auto, unfolding(board_core::specs::Access::after_run))]
fn hv_code(board: &Board) -> u32
    ensures { result ≡ hv_code (seen board.now) }
{
    if board.seal != SEAL {
        NO_BOARD
    } else if board.state.format() < HV_FORMAT {
        NOT_OURS
    } else {
        OK
    }
}

/// The reference page of a board as plain numbers.
fn hv_words(state: &BoardState) -> HvWords
    ensures { result ≡ hv_words state.now }
{
    let page = state.hv_page();
    let number = state.hv_number();
    HvWords {
        guest_address: number - number % PAGE_SIZE,
        enabled: if bit(0, number) { 1 } else { 0 },
        sequence: guest_sequence(&page) as u32,
        bytes: page_bytes(&page),
    }
}

/// The time that the reference page gives at count `host`, by the TSC of the processor that published it. It changes
/// nothing. The reply's value has the time, in units of 100 ns.
#[unsafe(no_mangle)]
pub extern "C" fn clockboard_hv_time(board: &Board, host: u64, reply: &mut ReplyWords)
    ensures reply { IsReply reply.old reply.new (hv_time_told (seen board.now) host) }
{
    let code = hv_code(board);
    if code != OK {
        reply.refuse(code);
        return;
    }
    tell_hv_time(&board.state, &board.lag, board.now_ns, host, reply);
}

/// The time that the page of a board gives which has one.
fn tell_hv_time(state: &BoardState, lag: &Lag, now_ns: u64, host: u64, reply: &mut ReplyWords)
    requires { now_ns ≡ now_of (caught_up state.now lag.now) }
    ensures reply { IsReply reply.old reply.new (hv_time_by (caught_up state.now lag.now) host) }
{
    match lagging_hv_of(state, lag, host) {
        Ok(HvReply::On { reading, .. }) => {
            reply.put_head(OK, 0, now_ns, [reading, 0, 0, 0]);
        }
        Ok(HvReply::Off) => reply.refuse(PAGE_OFF),
        Err(fault) => reply.refuse(time_code(fault)),
    }
}

/// What a read of the reference page at count `h` answers, of a board that lags: no run changes it.
fn lagging_hv_of(state: &BoardState, lag: &Lag, h: u64) -> Result<HvReply, TimeFault>
    ensures ok { OnOk result (HasTime (caught_up state.now lag.now).anchor h) }
    ensures value { IfOk result (λ r. r ≡ hv_reply (caught_up state.now lag.now) h) }
    ensures fault { IfErr result (λ f. time_fault (caught_up state.now lag.now).anchor h ≡ Some f) }
{
    let _lag = lag;
    state.hv_of(h)
}
