//! Why a race has no text.
use clk_units::NoMemory;

/// Why a race has no text.
#[derive(Clone, Copy, Debug, PartialEq, Eq)]
pub enum Halt {
    /// There is no memory.
    NoMemory,
    /// The feed was closed before the end of the trace, or a line of it is refused; where neither is so, what a thread or
    /// the lock gave back doesn't fit together.
    Closed,
}

impl From<NoMemory> for Halt {
    fn from(_: NoMemory) -> Halt {
        Halt::NoMemory
    }
}
