//! What a monitor reads of a board without an access: the board at a glance, and the numbers of a TSC.
ghost use Rattle.std.specs.Prelude.{◌≡◌, ℕ, ◌^◌, ◌<◌, ◌≤◌, ◌==◌, if◌then◌else◌};
ghost use Rattle.irq_edges.specs.Lines.{line_numbers};
ghost use Rattle.tsc_scale.specs.Offset.{tsc_by};
ghost use Rattle.board_types.specs.declared.access.TheConstants.{MSR_TSC};
ghost use Rattle.board_core.specs.Tsc.{msr_read};
ghost use Rattle.clockboard_c.specs.declared.board.TheConstants.{SEAL};
ghost use Rattle.clockboard_c.specs.declared.code.TheConstants.{OK, NO_BOARD};
ghost use Rattle.clockboard_c.specs.Kept.{seen};
ghost use Rattle.clockboard_c.specs.Look.{
  bit_if,
  lines_word,
  view_in_memory,
  processor_code,
  tsc_words,
  tsc_in_memory,
};

use crate::board::{Board, SEAL};
use crate::code::{NO_BOARD, NO_PROCESSOR, OK};
use board_core::BoardState;
use irq_edges::Lines;
use tsc_scale::ratio;

/// A board at a glance, `struct clockboard_view` of the header.
#[derive(Clone, Copy)]
#[repr(C)]
pub struct ViewWords {
    /// The board's time, in nanoseconds.
    pub now_ns: u64,
    /// How many accesses it has answered.
    pub accesses: u64,
    /// The greatest reading of a clock that it gave, in nanoseconds.
    pub greatest_ns: u64,
    /// Bit n is set where line n is up.
    pub lines: u32,
    /// The format.
    pub format: u8,
    /// How many processors there are.
    pub cpus: u8,
}

/// The board at a glance. It is no access. After a code other than `OK` the memory stays as it is.
#[unsafe(no_mangle)]
pub extern "C" fn clockboard_look(board: &mut Board, view: &mut ViewWords) -> u32
    ensures code { result ≡ (if (seen board.old).seal == SEAL then OK else NO_BOARD) }
    ensures view { view.new ≡ view_in_memory (seen board.old) view.old }
    ensures board { seen board.new ≡ seen board.old }
{
    if board.seal != SEAL {
        return NO_BOARD;
    }
    board.catch_up();
    let state = &board.state;
    *view = ViewWords {
        now_ns: state.now(),
        accesses: state.accesses(),
        greatest_ns: state.greatest(),
        lines: lines_word(state.lines()),
        format: state.format(),
        cpus: state.cpus(),
    };
    OK
}

/// The lines that are up, a bit each by their numbers.
fn lines_word(lines: Lines) -> u32
    ensures { result ≡ lines_word line_numbers lines.levels }
{
    let [pit, rtc, line_20, line_21, line_22, line_23] = lines.levels;
    bit_if(pit, 0)
        + bit_if(rtc, 8)
        + bit_if(line_20, 20)
        + bit_if(line_21, 21)
        + bit_if(line_22, 22)
        + bit_if(line_23, 23)
}

/// The bit of a line that is up, and else 0.
fn bit_if(up: bool, line: u8) -> u32
    requires { line < 32 }
    ensures value { result ≡ bit_if up line }
    ensures most { result ≤ 2 ^ line }
{
    if up { 1 << line } else { 0 }
}

/// The numbers of a processor's TSC, `struct clockboard_tsc` of the header.
#[derive(Clone, Copy)]
#[repr(C)]
pub struct TscWords {
    /// What is added to the scaled counter of the host, modulo 2^64.
    pub offset: u64,
    /// The ratio of the guest's rate to the host's, with 48 bits after the binary point.
    pub ratio: u64,
    /// The guest's rate in kHz.
    pub khz: u64,
}

/// The numbers of a processor's TSC: at count `h` of the host it is `h * ratio / 2^48 + offset`, modulo 2^64. It is no
/// access. After a code other than `OK` the memory stays as it is.
#[unsafe(no_mangle)]
#[tactic(auto, unfolding(board_core::specs::Access::after_run))]
pub extern "C" fn clockboard_tsc(board: &Board, cpu: u8, tsc: &mut TscWords) -> u32
    ensures code { result ≡ processor_code (seen board.now) cpu }
    ensures tsc { tsc.new ≡ tsc_in_memory (seen board.now) cpu tsc.old }
    // What the guest reads of its TSC is worked out of these numbers, at each count.
    ensures reads { result ≡ OK → (h : ℕ) →
        msr_read (seen board.now).state cpu h MSR_TSC ≡ tsc_by tsc.new.offset h tsc.new.ratio }
{
    if board.seal != SEAL {
        return NO_BOARD;
    }
    if cpu >= board.state.cpus() {
        return NO_PROCESSOR;
    }
    *tsc = tsc_words(&board.state, cpu);
    OK
}

/// The numbers of the TSC of a processor that is there.
fn tsc_words(state: &BoardState, cpu: u8) -> TscWords
    requires { cpu < state.now.cpus }
    ensures { result ≡ tsc_words state.now cpu }
{
    state.joined();
    let khz = state.guest_khz();
    TscWords {
        offset: state.tsc(cpu).offset,
        ratio: ratio(khz, state.anchor().khz),
        khz,
    }
}
