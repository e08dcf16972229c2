//! What c/shared.h needs for threads that share a board's pages: what no access changes, a page as words that are loaded
//! and stored each by itself, and what such words give at a count. No call here touches memory that another thread writes.
ghost use Rattle.std.specs.Prelude.{◌≡◌, ℕ, max, false};
ghost use Rattle.clk_units.specs.Ranges.{IsKhz};
ghost use Rattle.board_types.specs.declared.access.Access.TheVariants.{MsrWrite, Refresh};
ghost use Rattle.tsc_scale.specs.Ratio.{ratio_of};
ghost use Rattle.board_core.specs.Hv.{hv_reply};
ghost use Rattle.board_core.specs.Pages.{page_reply, with_greatest};
ghost use Rattle.clockboard_c.specs.Kept.{seen};
ghost use Rattle.clockboard_c.specs.Call.{IsSharedCall};
ghost use Rattle.clockboard_c.specs.States.{whole_code};
ghost use Rattle.clockboard_c.specs.Shared.{
  last_count,
  rates_of,
  AreTimes,
  opened,
  rates_in_memory,
  open_code,
  closed,
  words_code,
  words_in_memory,
  reply_in,
  count_code,
  reading_code,
  reading_told,
  hv_words_code,
  hv_words_in_memory,
  hv_reply_in,
  hv_reading_code,
  hv_reading_told,
};

use crate::board::{Board, SEAL};
use crate::call::shared_call;
use crate::code::{
    BEFORE_START, NO_BOARD, NO_PROCESSOR, NOT_OURS, NOT_SHARED, OK, OUT_OF_RANGE, PAGE_OFF,
};
use crate::reply::ReplyWords;
use crate::states::whole_code;
use crate::timer::count_within;
use board_core::BoardState;
use board_types::{Access, HV_FORMAT};
use clk_units::RANGE_NS;
use host_counter::Anchor;
use hv_page::{HvReply, as_page, of_page, reply};
use pvclock_page::{page_words, reading, words_page};
use tsc_scale::{ratio, tsc_by};

/// What the first word of `RateWords` holds that a call has filled: 'CLKBRDS' and the digit of `ABI`.
pub(crate) const RATES_SEAL: u64 = 0x3953_4452_424b_4c43;

/// What no access changes of a board, `struct clockboard_rates` of shared.h.
#[derive(Clone, Copy)]
#[repr(C)]
pub struct RateWords {
    /// `RATES_SEAL`.
    pub seal: u64,
    /// The first and the last count of the host's counter that have a time.
    pub host_start: u64,
    pub host_last: u64,
    /// The ratio of the guest's rate to the host's, with 48 bits after the binary point.
    pub ratio: u64,
    /// The greatest reading of a clock before the board was opened, in nanoseconds.
    pub greatest_ns: u64,
    /// How many processors there are.
    pub cpus: u64,
    /// The format.
    pub format: u64,
}

/// A page as five words: version, TSC, time, scale, offset. Hyper-V's reference page is kept in the words of such a page.
#[derive(Clone, Copy)]
#[repr(C)]
pub struct FiveWords {
    pub word: [u64; 5],
}

/// Opens a board for sharing. After a code other than `OK` the memory stays as it is.
#[unsafe(no_mangle)]
pub extern "C" fn clockboard_share(board: &mut Board, rates: &mut RateWords) -> u32
    ensures code { result ≡ whole_code (seen board.old) }
    ensures board { seen board.new ≡ opened (seen board.old) }
    ensures rates { rates.new ≡ rates_in_memory (seen board.old) rates.old }
    // Which counts have a time is known without a division.
    ensures times { result ≡ OK
        → AreTimes (seen board.old).state.anchor rates.new.host_start rates.new.host_last }
{
    let code = whole_code(board);
    if code == OK {
        board.catch_up();
        board.shared = true;
        *rates = rates_of(&board.state);
    }
    code
}

/// What no access changes of a board.
fn rates_of(state: &BoardState) -> RateWords
    ensures value { result ≡ rates_of state.now }
    ensures times { AreTimes state.now.anchor result.host_start result.host_last }
{
    let cpus = state.cpus();
    let anchor = state.anchor();
    RateWords {
        seal: RATES_SEAL,
        host_start: anchor.start,
        host_last: last_count(&anchor),
        ratio: ratio(state.guest_khz(), anchor.khz),
        greatest_ns: state.greatest(),
        cpus: u64::from(cpus),
        format: u64::from(state.format()),
    }
}

/// The last count of 64 bits that has a time.
fn last_count(anchor: &Anchor) -> u64
    requires { IsKhz anchor.now.khz }
    ensures { result ≡ last_count anchor.now }
{
    match count_within(anchor, RANGE_NS) {
        Some(end) => end.saturating_sub(1),
        None => u64::MAX,
    }
}

/// Closes a board that was open for sharing. `greatest_ns` is the greatest reading that its threads gave.
#[unsafe(no_mangle)]
pub extern "C" fn clockboard_unshare(board: &mut Board, greatest_ns: u64) -> u32
    ensures code { result ≡ open_code (seen board.old) }
    ensures board { seen board.new ≡ closed (seen board.old) greatest_ns }
{
    let code = open_code(board);
    if code == OK {
        close(board, greatest_ns);
    }
    code
}

/// Closes a board that is open.
fn close(board: &mut Board, greatest_ns: u64)
    ensures { seen board.new ≡ record (seen board.old) {
      shared = false;
      state = with_greatest (seen board.old).state (max (seen board.old).state.greatest greatest_ns);
    } }
{
    board.shared = false;
    board
        .state
        .set_greatest(board.state.greatest().max(greatest_ns));
}

/// The code of what only threads that share a board ask.
fn open_code(board: &Board) -> u32
    ensures { result ≡ open_code (seen board.now) }
{
    if board.seal != SEAL {
        NO_BOARD
    } else if board.shared {
        OK
    } else {
        NOT_SHARED
    }
}

/// The page of a processor as words. After a code other than `OK` the memory stays as it is.
#[unsafe(no_mangle)]
#[tactic(auto, unfolding(board_core::specs::Access::after_run, board_core::specs::Pages::page_reply))]
pub extern "C" fn clockboard_page_words(board: &Board, cpu: u8, words: &mut FiveWords) -> u32
    ensures code { result ≡ words_code (seen board.now) cpu }
    ensures words { words.new ≡ words_in_memory (seen board.now) cpu words.old }
    // At each count the words give what the board's page gives.
    ensures gives { result ≡ OK → (h : ℕ) →
        reply_in words.new (ratio_of board.now.state.guest_khz board.now.state.anchor.khz) h
        ≡ page_reply (seen board.now).state cpu h }
{
    let code = open_code(board);
    if code != OK {
        return code;
    }
    if cpu >= board.state.cpus() {
        return NO_PROCESSOR;
    }
    words.word = page_words(&board.state.page(cpu));
    OK
}

/// The time that a page of these words gives at count `host`, in nanoseconds; 0 after a code other than `OK`.
#[unsafe(no_mangle)]
pub extern "C" fn clockboard_page_reading(
    rates: &RateWords,
    words: &FiveWords,
    host: u64,
    reading_ns: &mut u64,
) -> u32
    ensures code { result ≡ reading_code rates.now words.now host }
    ensures reading { reading_ns.new ≡ reading_told rates.now words.now host }
{
    *reading_ns = 0;
    if rates.seal != RATES_SEAL {
        return NO_BOARD;
    }
    let code = count_code(rates, host);
    if code != OK {
        return code;
    }
    let page = words_page(&words.word);
    if !page.enabled {
        return PAGE_OFF;
    }
    *reading_ns = reading(&page, tsc_by(page.offset, host, rates.ratio));
    OK
}

/// Whether a count has a time.
#[inline(always)]
fn count_code(rates: &RateWords, host: u64) -> u32
    ensures { result ≡ count_code rates.now host }
{
    if host < rates.host_start {
        BEFORE_START
    } else if host > rates.host_last {
        OUT_OF_RANGE
    } else {
        OK
    }
}

/// Hyper-V's reference page as words. After a code other than `OK` the memory stays as it is.
#[unsafe(no_mangle)]
#[tactic(auto, unfolding(board_core::specs::Access::after_run, board_core::specs::Hv::hv_reply))]
pub extern "C" fn clockboard_hv_words(board: &Board, words: &mut FiveWords) -> u32
    ensures code { result ≡ hv_words_code (seen board.now) }
    ensures words { words.new ≡ hv_words_in_memory (seen board.now) words.old }
    // At each count the words give what the board's page gives.
    ensures gives { result ≡ OK → (h : ℕ) →
        hv_reply_in words.new (ratio_of board.now.state.guest_khz board.now.state.anchor.khz) h
        ≡ hv_reply (seen board.now).state h }
{
    let code = open_code(board);
    if code != OK {
        return code;
    }
    if board.state.format() < HV_FORMAT {
        return NOT_OURS;
    }
    words.word = page_words(&as_page(&board.state.hv_page()));
    OK
}

/// The time that a reference page of these words gives at count `host`, in units of 100 ns; 0 after a code other than `OK`.
#[unsafe(no_mangle)]
pub extern "C" fn clockboard_hv_reading(
    rates: &RateWords,
    words: &FiveWords,
    host: u64,
    reading: &mut u64,
) -> u32
    ensures code { result ≡ hv_reading_code rates.now words.now host }
    ensures reading { reading.new ≡ hv_reading_told rates.now words.now host }
{
    *reading = 0;
    if rates.seal != RATES_SEAL {
        return NO_BOARD;
    }
    if rates.format < u64::from(HV_FORMAT) {
        return NOT_OURS;
    }
    let code = count_code(rates, host);
    if code != OK {
        return code;
    }
    let page = of_page(&words_page(&words.word));
    match reply(&page, tsc_by(page.tsc_offset, host, rates.ratio)) {
        HvReply::On { reading: time, .. } => {
            *reading = time;
            OK
        }
        HvReply::Off => PAGE_OFF,
    }
}

/// A write to an MSR of a board that is open for sharing; the caller puts the words of the page that it publishes.
#[unsafe(no_mangle)]
pub extern "C" fn clockboard_share_msr_write(
    board: &mut Board,
    cpu: u8,
    host: u64,
    msr: u32,
    value: u64,
    reply: &mut ReplyWords,
)
    ensures { IsSharedCall board.old board.new reply.old reply.new cpu host (MsrWrite msr value) }
{
    shared_call(board, cpu, host, Access::MsrWrite { msr, value }, reply);
}

/// The page of a processor is published on a board that is open for sharing; the caller puts its words.
#[unsafe(no_mangle)]
pub extern "C" fn clockboard_share_refresh(
    board: &mut Board,
    cpu: u8,
    host: u64,
    page: u8,
    reply: &mut ReplyWords,
)
    ensures { IsSharedCall board.old board.new reply.old reply.new cpu host (Refresh page) }
{
    shared_call(board, cpu, host, Access::Refresh { page }, reply);
}
