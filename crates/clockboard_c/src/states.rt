//! Saved states, moves to another host, and later formats.
ghost use Rattle.std.specs.Prelude.{◌≡◌, ◌≢◌, ◌≤◌, ◌++◌, ◌⊎◌, false, drop, length};
ghost use Rattle.clk_units.specs.Ranges.{IsKhz};
ghost use Rattle.board_core.specs.Upgrade.{upgraded_to};
ghost use Rattle.board_types.specs.declared.setup.TheConstants.{LAST_FORMAT};
ghost use Rattle.board_reset.specs.Reset.{after_reset};
ghost use Rattle.save_state.specs.Writing.{bytes_of};
ghost use Rattle.save_state.specs.declared.fault.StateKind.{StateKind};
ghost use Rattle.clockboard_c.specs.Kept.{seen};
ghost use Rattle.clockboard_c.specs.Replies.{IsReply};
ghost use Rattle.clockboard_c.specs.States.{
  whole_code,
  save_code,
  kind_number,
  load_told,
  loaded,
  move_told,
  board_after_move,
  moved_told,
  state_after_move,
  fault_code,
  upgrade_code,
  board_after_upgrade,
  reset_by,
  reset_told,
  board_after_reset,
};

use crate::board::{Board, NO_KEPT, SEAL, sealed};
use crate::code::{
    BAD_FORMAT, BAD_RATE, BAD_STATE, NO_BOARD, NO_MEMORY, NO_ROOM, OK, OUT_OF_RANGE, SHARED,
    VERSIONS_SPENT,
};
use crate::reply::{NO_VALUE, ReplyWords};
use board_core::{BoardState, NO_LAG};
use board_reset::reset;
use board_types::LAST_FORMAT;
use clk_units::is_khz;
use save_state::{StateKind, decode, encode};
use std::alloc::Global;
use transfer::{MoveFault, moved};

/// Writes a board's saved state to the front of `bytes`, and how long it is to `written`; where the room is too small,
/// only the length. It takes memory, and gives it back.
#[unsafe(no_mangle)]
pub extern "C" fn clockboard_save(
    alloc: Global,
    board: &mut Board,
    bytes: &mut [u8],
    written: &mut usize,
) -> u32
    // Only want of memory comes between.
    ensures code { result ≡ NO_MEMORY ⊎ result ≡ save_code (seen board.old) (length bytes.old) }
    ensures saved { result ≡ OK → bytes.new
        ≡ bytes_of (seen board.old).state ++ drop (length (bytes_of (seen board.old).state)) bytes.old }
    ensures kept { result ≢ OK → bytes.new ≡ bytes.old }
    // The length that was written, or that is wanted.
    ensures length { result ≡ OK ⊎ result ≡ NO_ROOM
        → written.new ≡ length (bytes_of (seen board.old).state) }
    ensures none { result ≢ OK → result ≢ NO_ROOM → written.new ≡ 0 }
    ensures board { seen board.new ≡ seen board.old }
{
    *written = 0;
    let code = whole_code(board);
    if code != OK {
        return code;
    }
    board.catch_up();
    let Ok(saved) = encode(alloc, &board.state) else {
        return NO_MEMORY;
    };
    *written = saved.len();
    if saved.len() > bytes.len() {
        return NO_ROOM;
    }
    bytes[..saved.len()].copy_from_slice(&saved);
    OK
}

/// Makes the board of a saved state, in any memory. Bytes that are those of no board are refused: the reply's value has
/// the place of the first field at fault, and what is at fault there; the memory stays as it is.
#[unsafe(no_mangle)]
pub extern "C" fn clockboard_load(board: &mut Board, bytes: &[u8], reply: &mut ReplyWords)
    ensures reply { IsReply reply.old reply.new (load_told bytes.now) }
    ensures board { seen board.new ≡ loaded bytes.now (seen board.old) }
{
    match decode(bytes) {
        Ok(state) => {
            let accesses = state.accesses();
            let now_ns = state.now();
            *board = sealed(state);
            reply.take(accesses, now_ns, NO_VALUE, &[], &[]);
        }
        Err(fault) => {
            reply.refuse_at(BAD_STATE, [fault.place, kind_number(fault.kind), 0, 0]);
        }
    }
}

/// What is at fault, by a number.
fn kind_number(kind: StateKind) -> u64
    ensures { result ≡ kind_number kind }
{
    match kind {
        StateKind::Short => 0,
        StateKind::Magic => 1,
        StateKind::Version => 2,
        StateKind::Field => 3,
        StateKind::Trailing => 4,
    }
}

/// Moves a board to a host whose counter runs at `khz`, and counts `start` when the gap of `gap_ns` is over. The reply has
/// the edges and the messages of the gap.
#[unsafe(no_mangle)]
pub extern "C" fn clockboard_move(
    board: &mut Board,
    khz: u64,
    start: u64,
    gap_ns: u64,
    reply: &mut ReplyWords,
)
    ensures reply { IsReply reply.old reply.new (move_told (seen board.old) khz start gap_ns) }
    ensures board { seen board.new ≡ board_after_move (seen board.old) khz start gap_ns }
{
    let code = whole_code(board);
    if code != OK {
        reply.refuse(code);
        return;
    }
    if !is_khz(khz) {
        reply.refuse(BAD_RATE);
        return;
    }
    move_board(board, khz, start, gap_ns, reply);
}

/// Moves a board that no threads share to a host with a rate in range.
fn move_board(board: &mut Board, khz: u64, start: u64, gap_ns: u64, reply: &mut ReplyWords)
    requires { IsKhz khz }
    ensures reply { IsReply reply.old reply.new (moved_told (seen board.old).state khz start gap_ns) }
    ensures board { seen board.new ≡ record (seen board.old) {
      known = false;
      state = state_after_move (seen board.old).state khz start gap_ns;
    } }
{
    board.catch_up();
    board.next = NO_KEPT;
    board.lag = NO_LAG; // the devices run over the gap
    move_on(&mut board.state, khz, start, gap_ns, reply);
    board.now_ns = board.state.now();
}

/// Moves a board to a host with a rate in range.
#[inline(never)]
fn move_on(state: &mut BoardState, khz: u64, start: u64, gap_ns: u64, reply: &mut ReplyWords)
    requires { IsKhz khz }
    ensures reply { IsReply reply.old reply.new (moved_told state.old khz start gap_ns) }
    ensures state { state.new ≡ state_after_move state.old khz start gap_ns }
{
    match moved(state, khz, start, gap_ns) {
        Ok(moved) => {
            *state = moved.state;
            reply.take(
                state.accesses(),
                state.now(),
                NO_VALUE,
                moved.edges.as_slice(),
                moved.bursts.as_slice(),
            );
        }
        Err(fault) => reply.refuse(fault_code(fault)),
    }
}

/// The code of a move that is refused.
fn fault_code(fault: MoveFault) -> u32
    ensures { result ≡ fault_code fault }
{
    match fault {
        MoveFault::OutOfRange { .. } => OUT_OF_RANGE,
        MoveFault::VersionsSpent { .. } => VERSIONS_SPENT,
    }
}

/// Resets a board at its present time, as a reset of the PC does. It is no access. The reply has the edges of the lines that
/// were up.
#[unsafe(no_mangle)]
pub extern "C" fn clockboard_reset(board: &mut Board, reply: &mut ReplyWords)
    ensures reply { IsReply reply.old reply.new (reset_told (seen board.old)) }
    ensures board { seen board.new ≡ board_after_reset (seen board.old) }
{
    let code = whole_code(board);
    if code != OK {
        reply.refuse(code);
        return;
    }
    reset_board(board, reply);
}

/// Resets a board that no threads share.
fn reset_board(board: &mut Board, reply: &mut ReplyWords)
    ensures reply { IsReply reply.old reply.new (reset_by (seen board.old).state) }
    ensures board { seen board.new ≡ record (seen board.old) {
      known = false;
      state = after_reset (seen board.old).state;
    } }
{
    board.catch_up();
    board.next = NO_KEPT;
    board.lag = NO_LAG;
    reset_at_once(&mut board.state, reply);
    board.now_ns = board.state.now();
}

/// Resets the devices.
#[inline(never)]
#[tactic(auto, unfolding(crate::specs::States::reset_by))]
fn reset_at_once(state: &mut BoardState, reply: &mut ReplyWords)
    ensures reply { IsReply reply.old reply.new (reset_by state.old) }
    ensures state { state.new ≡ after_reset state.old }
{
    let accesses = state.accesses();
    let now = state.now();
    let edges = reset(state);
    reply.take(accesses, now, NO_VALUE, edges.as_slice(), &[]);
}

/// Takes a board to a later format, or leaves it in the same.
#[unsafe(no_mangle)]
pub extern "C" fn clockboard_upgrade(board: &mut Board, format: u8) -> u32
    ensures code { result ≡ upgrade_code (seen board.old) format }
    ensures board { seen board.new ≡ board_after_upgrade (seen board.old) format }
{
    let code = whole_code(board);
    if code != OK {
        return code;
    }
    board.catch_up();
    if format < board.state.format() || format > LAST_FORMAT {
        return BAD_FORMAT;
    }
    upgrade_board(board, format);
    OK
}

/// Takes a board that doesn't lag to a format that is built, and not before its own.
fn upgrade_board(board: &mut Board, format: u8)
    requires up { (seen board.old).state ≡ board.old.state }
    requires later { board.old.state.format ≤ format }
    requires built { format ≤ LAST_FORMAT }
    ensures { seen board.new ≡ record (seen board.old) {
      known = false;
      state = upgraded_to format (seen board.old).state;
    } }
{
    board.next = NO_KEPT;
    board.lag = NO_LAG;
    board.state = board.state.upgraded(format);
    board.now_ns = board.state.now();
}

/// The code of what is done with a board as a whole, and not while threads share its pages.
pub(crate) fn whole_code(board: &Board) -> u32
    ensures { result ≡ whole_code (seen board.now) }
{
    if board.seal != SEAL {
        NO_BOARD
    } else if board.shared {
        SHARED
    } else {
        OK
    }
}
