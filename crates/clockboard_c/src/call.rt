//! One access to a board that C holds.
ghost use Rattle.std.specs.Prelude.{◌≡◌, ◌<◌, ◌&&◌, true, false, IsSome, Some, None};
ghost use Rattle.board_types.specs.declared.reply.Refusal.{Refusal};
ghost use Rattle.board_core.specs.Refusals.{refusal_of};
ghost use Rattle.clockboard_c.specs.Codes.{code_of};
ghost use Rattle.clockboard_c.specs.Replies.{IsReply, refused};
ghost use Rattle.board_core.specs.Lazy.{is_passive, caught_up, IsLazy, IsCounted};
ghost use Rattle.board_core.specs.Time.{now_of};
ghost use Rattle.clockboard_c.specs.Kept.{seen};
ghost use Rattle.clockboard_c.specs.Call.{
  access_code,
  early_code,
  publishes,
  shared_code,
  leaves_lines,
  is_none,
  IsTaken,
  HasAnswered,
  IsCalled,
  IsSharedCall,
};

use crate::board::{Board, SEAL};
use crate::code::{NO_BOARD, NO_PROCESSOR, NOT_OURS, NOT_SHARED, OK, SHARED, code_of};
use crate::reply::{ReplyWords, value_words};
use board_core::{BoardState, Lag, is_passive, published_by, publishes_hv};
use board_types::{Access, Reply};
use irq_edges::EdgeList;
use pit_readback::is_pit_port;

/// One access by processor `cpu` at count `host`: what of it C could have given that no board takes is answered by
/// a code; else the board answers. Each call of C's has its own copy of these tests, in which its kind of access is known.
#[inline(always)]
pub(crate) fn call(board: &mut Board, cpu: u8, host: u64, access: Access, reply: &mut ReplyWords)
    ensures { IsCalled board.old board.new reply.old reply.new cpu host access }
{
    // No code refuses an access that is only counted: it needs no other test, and no place for the access in memory.
    if is_counted(board, cpu, host, access) {
        count(board, cpu, host, access, reply);
    } else {
        refuse_or_run(board, cpu, host, access, reply);
    }
}

/// A passive access is only counted where nothing comes before it that could be seen.
#[inline(always)]
fn is_counted(board: &Board, cpu: u8, host: u64, access: Access) -> bool
    ensures code { result ≡ true → early_code (seen board.now) cpu access ≡ None }
    ensures passive { result ≡ true → is_passive access ≡ true }
    ensures counted { result ≡ true → IsCounted board.now.state board.now.lag host }
{
    if board.seal != SEAL || cpu >= board.state.cpus() {
        return false;
    }
    is_passive(access) && board.state.counts(&board.lag, host)
}

/// The answer to an access that isn't only counted.
#[inline(always)]
fn refuse_or_run(board: &mut Board, cpu: u8, host: u64, access: Access, reply: &mut ReplyWords)
    ensures { IsCalled board.old board.new reply.old reply.new cpu host access }
{
    match early_code(board, cpu, access) {
        Some(code) => reply.refuse(code),
        None => run(board, cpu, host, access, reply),
    }
}

/// The same to a board that is open for sharing, where the caller puts the words of the page that the access publishes.
#[inline(always)]
pub(crate) fn shared_call(
    board: &mut Board,
    cpu: u8,
    host: u64,
    access: Access,
    reply: &mut ReplyWords,
)
    ensures { IsSharedCall board.old board.new reply.old reply.new cpu host access }
{
    match shared_code(board, cpu, access) {
        Some(code) => reply.refuse(code),
        None => run(board, cpu, host, access, reply),
    }
}

/// Why an access isn't handed to the board. The seal is looked at before anything else of it.
#[inline(always)]
#[tactic(auto, unfolding(board_core::specs::Access::after_run))]
fn early_code(board: &Board, cpu: u8, access: Access) -> Option<u32>
    ensures { result ≡ early_code (seen board.now) cpu access }
{
    if board.seal != SEAL {
        return Some(NO_BOARD);
    }
    if board.shared && publishes(cpu, access) {
        return Some(SHARED);
    }
    access_code(&board.state, cpu, access)
}

/// The same for the calls of a board that is open for sharing.
#[inline(always)]
#[tactic(auto, unfolding(board_core::specs::Access::after_run))]
fn shared_code(board: &Board, cpu: u8, access: Access) -> Option<u32>
    ensures { result ≡ shared_code (seen board.now) cpu access }
{
    if board.seal != SEAL {
        return Some(NO_BOARD);
    }
    if !board.shared {
        return Some(NOT_SHARED);
    }
    access_code(&board.state, cpu, access)
}

/// Whether an access publishes a page that threads share: a processor's, or Hyper-V's.
#[inline(always)]
fn publishes(cpu: u8, access: Access) -> bool
    ensures { result ≡ publishes cpu access }
{
    published_by(cpu, access).is_some() || publishes_hv(access)
}

/// Why a board takes no such access.
#[inline(always)]
fn access_code(state: &BoardState, cpu: u8, access: Access) -> Option<u32>
    ensures { result ≡ access_code state.now cpu access }
{
    if cpu >= state.cpus() {
        return Some(NO_PROCESSOR);
    }
    if !access.legal(state.cpus(), state.format()) {
        return Some(NOT_OURS);
    }
    None
}

/// The answer to an access that is only counted. A count that isn't beyond the greatest moves no time.
#[inline(always)]
fn count(board: &mut Board, cpu: u8, host: u64, access: Access, reply: &mut ReplyWords)
    requires passive { is_passive access ≡ true }
    requires counted { IsCounted board.old.state board.old.lag host }
    ensures { HasAnswered board.old board.new reply.old reply.new cpu host access }
{
    board.state.joined();
    let later = board.state.count(&mut board.lag, host);
    let now_ns = move_now(&mut board.now_ns, &board.state, &board.lag, later);
    let number = board.state.accesses();
    let value = board.state.take_passive(&board.lag, now_ns, access);
    reply.put_head(OK, number, now_ns, value_words(value));
}

/// Moves the time of a board that lags, which is the one before unless a later count was counted.
#[inline(always)]
fn move_now(now_ns: &mut u64, state: &BoardState, lag: &Lag, later: bool) -> u64
    requires lazy { IsLazy state.now lag.now.host lag.now.horizon }
    requires same { later ≡ false → now_ns.old ≡ now_of (caught_up state.now lag.now) }
    requires later { later ≡ true → state.now.host < lag.now.host }
    ensures value { result ≡ now_of (caught_up state.now lag.now) }
    ensures kept { now_ns.new ≡ result }
{
    if later {
        *now_ns = state.later_now(lag);
    }
    *now_ns
}

/// The board's answer, in one place for all calls: so the board's code for an access is in it, and not a call away.
#[inline(never)]
fn run(board: &mut Board, cpu: u8, host: u64, access: Access, reply: &mut ReplyWords)
    requires { IsTaken (seen board.old).state cpu access }
    ensures { HasAnswered board.old board.new reply.old reply.new cpu host access }
{
    board.state.joined();
    let mut answered = Reply::empty();
    let taken = board
        .state
        .take_lagging(&mut board.lag, cpu, host, access, &mut answered);
    if !taken {
        refuse(&board.state, cpu, host, access, reply);
        return;
    }
    let kept = keeps_next(access, &answered.edges);
    board.next.keep_where(kept);
    let now_ns = board.state.lagging_now(&board.lag);
    board.now_ns = now_ns;
    reply.take_answer(&answered, now_ns);
}

/// The code of an access that the board refuses.
#[cold]
#[inline(never)]
fn refuse(state: &BoardState, cpu: u8, host: u64, access: Access, reply: &mut ReplyWords)
    requires asked { IsTaken state.now cpu access }
    requires refused { IsSome (refusal_of state.now cpu host access) }
    ensures { (e : Refusal) → refusal_of state.now cpu host access ≡ Some e
        → IsReply reply.old reply.new (refused (code_of e)) }
{
    reply.refuse(code_of(state.refusal(cpu, host, access)));
}

/// Whether the next edge is what it was: the access leaves the lines to go on as they would, and none changed.
#[inline(always)]
fn keeps_next(access: Access, edges: &EdgeList) -> bool
    ensures { result ≡ (leaves_lines access && is_none edges.now) }
{
    leaves_lines(access) && edges.is_empty()
}

/// Whether the lines go on after an access as they would without it: it asks the devices to do nothing, or only reads the
/// HPET or the 8254.
#[inline(always)]
fn leaves_lines(access: Access) -> bool
    ensures { result ≡ leaves_lines access }
{
    match access {
        Access::PortIn { port } => is_pit_port(port),
        Access::PortOut { .. } | Access::HpetWrite { .. } | Access::Ack { .. } => false,
        _ => true,
    }
}
