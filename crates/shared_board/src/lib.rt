//! A board that threads share: its registers behind one lock, its pages beside it, and one history of both.
//!
//! Each caller has a [`Pass`]. An access takes the lock; a page of the paravirtual clock, and the clock by it, are read
//! without it, as a guest reads them (`clock_table`). What the callers were told is in one legal history of one
//! board (`board_history`): each call's entries in it are what the call was answered, after all that its caller had
//! seen. [`SharedBoard::stop`] gives the board after that history, once all passes are given back.
//!
//! ```text
//! let blank = Blank::new(alloc, &state)?;
//! run::<Brand, _>(rt, alloc, blank, &state)                   // a function of the caller's own over N: Name
//!
//! let (board, passes) = SharedBoard::<N>::new(alloc, blank, state, 2)?;
//! let asked = Asked { cpu: 0, h: 1_000, access: Access::Step };
//! board.access(rt, &OpenGate, &mut pass, asked)?                    // by one thread
//! board.read(rt, &mut pass, Read::Clock { cpu: 0 }, 1_000)?         // by another, with its own pass
//! ```
#![tactic(auto)]

mod fault;
mod held;
mod holding;
mod host;
mod known;
mod lazy;
mod pass;
mod pens;
mod read;
mod shared;
mod stop;
mod tries;
mod waiters;

pub use clock_table::Asked;
pub use fault::{LockedFault, PageFault};
pub use held::Held;
pub use holding::Holding;
pub use host::HostClock;
pub use known::PassKnown;
pub use pass::Pass;
pub use read::{Read, ReadReply};
pub use shared::{PassesOut, SharedBoard, Stopped};
pub use tries::try_table_on;
