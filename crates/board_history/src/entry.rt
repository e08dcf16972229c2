//! The entries of a history.
ghost use Rattle.std.specs.Prelude.{◌≡◌};
ghost use Rattle.board_history.specs.History.{pass_of};

use board_core::{Access, BoardState, Reply};
use hv_page::HvPage;
use pvclock_page::Page;

/// One point of a history. `pass` is the number of the caller's pass.
#[derive(Drop)]
pub enum Entry {
    /// The board as it was handed over: the first entry, and no other.
    Opened {
        state: BoardState,
    },
    /// An access by processor `cpu` at count `h`, and what it was answered.
    Board {
        pass: u64,
        cpu: u8,
        h: u64,
        access: Access,
        reply: Reply,
    },
    /// A read of the page of processor `cpu` at count `h`: the page as it was then, and whether it was read under
    /// the lock.
    PageRead {
        pass: u64,
        cpu: u8,
        h: u64,
        page: Page,
        locked: bool,
    },
    /// A read of the reference page of Hyper-V at count `h`: the page as it was then, and whether it was read under
    /// the lock.
    HvRead {
        pass: u64,
        h: u64,
        page: HvPage,
        locked: bool,
    },
    /// The clamp after a read of an enabled page of processor `cpu`: what the page gave, and the clock that was
    /// answered, the greater of it and of all that were answered before.
    Clamp {
        pass: u64,
        cpu: u8,
        reading: u64,
        clock: u64,
    },
}

impl Entry {
    /// The number of the pass that made it. No pass made `Opened`.
    pub fn pass(&self) -> Option<u64>
        ensures { result ≡ pass_of self.now }
    {
        match *self {
            Entry::Opened { .. } => None,
            Entry::Board { pass, .. }
            | Entry::PageRead { pass, .. }
            | Entry::HvRead { pass, .. }
            | Entry::Clamp { pass, .. } => Some(pass),
        }
    }
}

/// The entry with which the history of a board begins.
pub fn opened(state: &BoardState) -> Entry
    ensures { result ≡ Entry.Opened state.now }
{
    Entry::Opened { state: *state }
}
