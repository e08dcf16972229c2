//! The pages of a board as versioned words that any thread reads without a lock, and the clamp.
//!
//! A page lies in five words: its version and four fields. The writer makes the version odd, stores the fields, and
//! makes the version even again; a reader loads the version, the fields, and the version once more, and takes the
//! page where both versions are the same even number. This is the sequence lock of Linux (`Documentation/locking/
//! seqlock.rst`) and of pvclock (`arch/x86/include/asm/pvclock-abi.h`). A clamp word holds the greatest clock that was
//! answered, and a front word counts the reads under the lock.
//!
//! Each thread steps with a seat, which takes no bytes. What a seat has seen of the board's history
//! (`board_history`) is known to the proofs alone. One seat holds the pen: only it opens pages and adds to the front
//! word. So the entries of all threads are in one legal history, and `specs/Steps.antt` says what each call shows
//! its seat of it.
#![tactic(auto)]

mod blank;
mod call;
mod closed;
mod field;
mod name;
mod place;
mod plays;
mod table;
mod view;

pub use blank::Blank;
pub use call::{Asked, Call};
pub use closed::{Closed, MOST_PAGES};
pub use field::Field;
pub use name::Name;
pub use place::SeatPlace;
pub use table::{ClockSeat, ClockTable};
pub use view::{Ended, Hand, Meet, Miss, Read, View};
