//! What a monitor's one timer needs: the next edge, tick and message, and the host's count of a time.
ghost use Rattle.std.specs.Prelude.{◌≡◌, ◌≢◌, ◌⊎◌, ◌+◌, ◌-◌, ◌*◌, ◌/◌, ◌<◌, IfSome, true};
ghost use Rattle.clk_units.specs.Ranges.{IsKhz};
ghost use Rattle.board_core.specs.Next.{IsNextTick, next_message_of};
ghost use Rattle.clockboard_c.specs.Look.{processor_code};
ghost use Rattle.clockboard_c.specs.Kept.{code_or_none, number_or_0, next_edge_of, kept_of, seen};
ghost use Rattle.clockboard_c.specs.Timer.{
  told_number,
  answer_code,
  answer_number,
  with_next,
  count_of,
  count_in,
  count_within,
  IsFirstCount,
};

use crate::board::{Board, KeptEdge, SEAL};
use crate::code::{NO_BOARD, NO_EDGE, NO_PROCESSOR, OK};
use board_core::BoardState;
use host_counter::Anchor;

/// Nanoseconds in a millisecond, of which a counter of 1 kHz counts one.
const MILLISECOND_NS: u128 = 1_000_000;

/// The first nanosecond after the board's time, and below 2^59, in which a line changes if no access comes; 0 after a
/// code other than `OK`. The board keeps it until an access may have changed it, so that it is looked up again then alone.
#[unsafe(no_mangle)]
pub extern "C" fn clockboard_next_edge(board: &mut Board, at_ns: &mut u64) -> u32
    ensures code { result ≡ answer_code (seen board.old) (next_edge_of (seen board.old).state) }
    ensures number { at_ns.new ≡ answer_number (seen board.old) (next_edge_of (seen board.old).state) }
    ensures board { seen board.new ≡ with_next (seen board.old) }
{
    if board.seal != SEAL {
        *at_ns = 0;
        return NO_BOARD;
    }
    if !board.next.known {
        keep_next(board);
    }
    *at_ns = board.next.ns;
    board.next.code
}

/// Looks up the next edge, and keeps it.
#[inline(never)]
fn keep_next(board: &mut Board)
    ensures { seen board.new ≡ record (seen board.old) { known = true } }
{
    board.catch_up();
    board.next = next_edge(&board.state);
}

/// The next edge as it is kept.
fn next_edge(state: &BoardState) -> KeptEdge
    ensures { result ≡ kept_of true state.now }
{
    let mut ns = 0;
    let code = tell(state.next_edge(), &mut ns);
    KeptEdge {
        known: true,
        code,
        ns,
    }
}

/// The same for the local APIC's timer of processor `cpu`: the nanosecond in which it fires and isn't masked.
#[unsafe(no_mangle)]
pub extern "C" fn clockboard_next_tick(board: &mut Board, cpu: u8, at_ns: &mut u64) -> u32
    ensures refused { processor_code (seen board.old) cpu ≢ OK → result ≡ processor_code (seen board.old) cpu }
    ensures taken { processor_code (seen board.old) cpu ≡ OK → result ≡ OK ⊎ result ≡ NO_EDGE }
    ensures next { processor_code (seen board.old) cpu ≡ OK
        → IsNextTick (seen board.old).state cpu (told_number result at_ns.new) }
    ensures none { result ≢ OK → at_ns.new ≡ 0 }
    ensures board { seen board.new ≡ seen board.old }
{
    *at_ns = 0;
    if board.seal != SEAL {
        return NO_BOARD;
    }
    board.catch_up();
    if cpu >= board.state.cpus() {
        return NO_PROCESSOR;
    }
    tell(board.state.next_tick(cpu), at_ns)
}

/// The same for the messages of the HPET's timers.
#[unsafe(no_mangle)]
pub extern "C" fn clockboard_next_message(board: &mut Board, at_ns: &mut u64) -> u32
    ensures code { result ≡ answer_code (seen board.old) (next_message_of (seen board.old).state) }
    ensures number { at_ns.new ≡ answer_number (seen board.old) (next_message_of (seen board.old).state) }
    ensures board { seen board.new ≡ seen board.old }
{
    if board.seal != SEAL {
        *at_ns = 0;
        return NO_BOARD;
    }
    board.catch_up();
    tell(board.state.next_message(), at_ns)
}

/// The first count of the host's counter whose time is `at_ns` or later; 0 after a code other than `OK`.
#[unsafe(no_mangle)]
#[tactic(auto, unfolding(board_core::specs::Access::after_run))]
pub extern "C" fn clockboard_counter_of(board: &Board, at_ns: u64, host: &mut u64) -> u32
    ensures code { result ≡ answer_code (seen board.now) (count_in (seen board.now) at_ns) }
    ensures number { host.new ≡ answer_number (seen board.now) (count_in (seen board.now) at_ns) }
    ensures first { result ≡ OK → IsFirstCount (seen board.now).state.anchor at_ns host.new }
{
    if board.seal != SEAL {
        *host = 0;
        return NO_BOARD;
    }
    tell(count_within(&anchor_of(&board.state), at_ns), host)
}

/// The anchor of a board, with a rate in range.
fn anchor_of(state: &BoardState) -> Anchor
    ensures value { result ≡ state.now.anchor }
    ensures rate { IsKhz result.khz }
{
    state.joined();
    state.anchor()
}

/// Puts a number where there is one, and answers the code.
fn tell(told: Option<u64>, number: &mut u64) -> u32
    ensures code { result ≡ code_or_none told }
    ensures number { number.new ≡ number_or_0 told }
    ensures told { told_number result number.new ≡ told }
    ensures known { result ≡ OK ⊎ result ≡ NO_EDGE }
    ensures none { result ≢ OK → number.new ≡ 0 }
{
    match told {
        Some(told) => {
            *number = told;
            OK
        }
        None => {
            *number = 0;
            NO_EDGE
        }
    }
}

/// The first count with a time or a later one, where 64 bits hold it.
#[tactic(auto, using(crate::proofs::Counts::first_count), unfolding(crate::specs::Timer::count_of))]
pub(crate) fn count_within(anchor: &Anchor, t: u64) -> Option<u64>
    requires { IsKhz anchor.now.khz }
    ensures value { result ≡ count_within anchor.now t }
    ensures first { IfSome result (IsFirstCount anchor.now t) }
{
    let behind = u128::from(t.saturating_sub(anchor.base_ns));
    let counts = (behind * u128::from(anchor.khz) + (MILLISECOND_NS - 1)) / MILLISECOND_NS;
    let count = u128::from(anchor.start) + counts;
    if count < 0x1_0000_0000_0000_0000 {
        Some(count as u64)
    } else {
        None
    }
}
