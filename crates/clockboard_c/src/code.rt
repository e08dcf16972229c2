//! The codes that calls answer, `enum clockboard_answer` of the header.
ghost use Rattle.std.specs.Prelude.{◌≡◌};
ghost use Rattle.clockboard_c.specs.Codes.{code_of, time_code};

use board_types::Refusal;
use host_counter::TimeFault;

/// The call was taken.
pub const OK: u32 = 0;

/// The memory holds no board of this library.
pub const NO_BOARD: u32 = 1;

/// The board has no such port, register, line, source or page, or the value is wider than the access.
pub const NOT_OURS: u32 = 2;

/// The board has no such processor.
pub const NO_PROCESSOR: u32 = 3;

/// The count of the host's counter lies before that of the anchor.
pub const BEFORE_START: u32 = 4;

/// The time would be 2^59 ns or more.
pub const OUT_OF_RANGE: u32 = 5;

/// A page, or the wall clock's words, would be published after the last version.
pub const VERSIONS_SPENT: u32 = 6;

/// The board has answered 2^62 accesses.
pub const ACCESSES_SPENT: u32 = 7;

/// A number of the setup is out of its range.
pub const BAD_SETUP: u32 = 8;

/// The bytes are those of no board.
pub const BAD_STATE: u32 = 9;

/// The caller's buffer is too small.
pub const NO_ROOM: u32 = 10;

/// Memory ran out.
pub const NO_MEMORY: u32 = 11;

/// The rate is out of range.
pub const BAD_RATE: u32 = 12;

/// The format isn't built, or is before that of the board.
pub const BAD_FORMAT: u32 = 13;

/// The guest hasn't enabled the page.
pub const PAGE_OFF: u32 = 14;

/// No line changes below 2^59 ns, or no count has that time.
pub const NO_EDGE: u32 = 15;

/// The pages' words are being put; of shared.h alone, which tries again.
pub const AGAIN: u32 = 16;

/// Threads share the board's pages: the call waits until they don't, or is one of shared.h's.
pub const SHARED: u32 = 17;

/// Threads don't share the board's pages.
pub const NOT_SHARED: u32 = 18;

/// The code of a count that has no time.
pub(crate) fn time_code(fault: TimeFault) -> u32
    ensures { result ≡ time_code fault }
{
    match fault {
        TimeFault::BeforeStart { .. } => BEFORE_START,
        TimeFault::OutOfRange { .. } => OUT_OF_RANGE,
    }
}

/// The code of a refusal.
pub(crate) fn code_of(refusal: Refusal) -> u32
    ensures { result ≡ code_of refusal }
{
    match refusal {
        Refusal::NoTime(fault) => time_code(fault),
        Refusal::VersionsSpent { .. } => VERSIONS_SPENT,
        Refusal::Spent { .. } => ACCESSES_SPENT,
    }
}
