//! The board as C keeps it.
ghost use Rattle.std.specs.Prelude.{◌≡◌, if◌then◌else◌};
ghost use Rattle.board_types.specs.Setup.{setup_by_default};
ghost use Rattle.board_core.specs.PowerOn.{board_at_power_on};
ghost use Rattle.clockboard_c.specs.Call.{sealed};
ghost use Rattle.clockboard_c.specs.Kept.{no_kept, seen};

use crate::reply::ReplyWords;
use board_core::{BoardState, Lag, NO_LAG};
use board_types::Setup;
use std::marker::Model;
use std::mem::size_of;

/// The number of this binary interface: it goes up where a struct or a call changes.
pub const ABI: u32 = 9;

/// What the first word of each board holds: 'CLKBRDC' and the digit of `ABI`, the lowest byte first. So memory that holds
/// a board of another interface holds none of this.
pub(crate) const SEAL: u64 = 0x3943_4452_424b_4c43;

/// The next edge that a board keeps: where `known`, what `clockboard_next_edge` answers, and else 0.
#[derive(Clone, Copy)]
#[repr(C)]
pub struct KeptEdge {
    pub(crate) known: bool,
    pub(crate) code: u32,
    pub(crate) ns: u64,
}

/// None is kept.
pub(crate) const NO_KEPT: KeptEdge = KeptEdge {
    known: false,
    code: 0,
    ns: 0,
};

impl KeptEdge {
    /// Goes on to keep what it keeps, or keeps nothing.
    #[inline(always)]
    pub(crate) fn keep_where(&mut self, kept: bool)
        ensures { self.new ≡ (if kept then self.old else no_kept) }
    {
        if !kept {
            *self = NO_KEPT;
        }
    }
}

/// A board in the caller's memory, `struct clockboard` of the header. It holds no pointer, so it may be moved and
/// copied whole.
#[derive(Drop)]
#[repr(C)]
pub struct Board {
    /// `SEAL`, in each board that a call has made.
    pub(crate) seal: u64,
    /// Whether threads share its pages: from `clockboard_share` to `clockboard_unshare`.
    pub(crate) shared: bool,
    pub(crate) next: KeptEdge,
    /// How far the devices lag: steps, and reads of the HPET's main counter and of the 8254's ports, are only counted while
    /// nothing comes that a caller sees.
    pub(crate) lag: Lag,
    /// The board's time, that of the greatest count of all accesses.
    pub(crate) now_ns: u64,
    /// The board as it was when its devices last ran, but with all accesses counted.
    pub(crate) state: BoardState,
}

impl Model for Board {
    ghost use Rattle.std.specs.Prelude.{ℕ};
    ghost use Rattle.std.proofs.Common.{ap, sym, ◌∙◌};
    ghost use Rattle.clockboard_c.specs.Kept.{LaggingBoard};

    ghost Value = { LaggingBoard };

    ghost use Rattle.clockboard_c.specs.View.{lagging_board, board_of, IsKept};
    ghost use Rattle.clockboard_c.specs.declared.board.KeptEdge.{KeptEdge};

    ghost view = { lagging_board };

    ghost invariant = { IsKept };

    ghost inverse = { board_of };

    ghost inverse_ok = { λ b kept.
        ap (λ (k : KeptEdge). record b { next = k; now_ns = (board_of (lagging_board b)).now_ns })
        (sym kept.next)
        ∙ ap (λ (t : ℕ). record b { now_ns = t }) (sym kept.time) };
}

impl Board {
    /// Runs the devices to the board's time.
    #[inline(always)]
    pub(crate) fn catch_up(&mut self)
        ensures board { self.new ≡ record self.old { state = (seen self.old).state } }
        ensures seen { seen self.new ≡ seen self.old }
    {
        self.state.catch_up(&self.lag);
    }
}

/// A board of this state.
pub(crate) fn sealed(state: BoardState) -> Board
    ensures { seen result ≡ sealed state }
{
    let now_ns = state.now();
    Board {
        seal: SEAL,
        shared: false,
        next: NO_KEPT,
        lag: NO_LAG,
        now_ns,
        state,
    }
}

/// The number of the binary interface, which a program compares with its header's.
#[unsafe(no_mangle)]
pub extern "C" fn clockboard_abi() -> u32
    ensures { result ≡ ABI }
{
    ABI
}

/// How many bytes a board takes, which a program compares with its header's.
#[unsafe(no_mangle)]
pub extern "C" fn clockboard_size() -> usize {
    size_of::<Board>()
}

/// How many bytes a reply takes.
#[unsafe(no_mangle)]
pub extern "C" fn clockboard_reply_size() -> usize {
    size_of::<ReplyWords>()
}

/// A board at power on, with the setup by default. It is how a caller makes a first one.
#[unsafe(no_mangle)]
pub extern "C" fn clockboard_blank() -> Board
    ensures { seen result ≡ sealed (board_at_power_on (setup_by_default 1)) }
{
    sealed(BoardState::power_on(&Setup::by_default(1)))
}
