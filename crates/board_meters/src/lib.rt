//! What the refusals of a board depend on.
//!
//! A board refuses by a few numbers: the anchor of the host's counter, how many accesses there were, and the versions of its
//! pages. [`Meters`] holds them, and nothing of the devices. Why an access or a move is refused is a function of the meters, and
//! so are the meters after it (`specs/Meters.antt`): each is defined once, and board, race and move speak of it.
//! A [`Tally`] is meters that are kept without a board.
//!
//! ```text
//! let mut tally = board.tally();
//! tally.admit(0, 1_000, Access::Step)?;    // what the board would refuse
//! tally.count(0, 1_000, Access::Step);     // what it would count
//! ```
#![tactic(auto)]

mod meters;
mod published;
mod refusals;
mod tally;

pub use meters::{Meters, MoveFault};
pub use published::{published_by, publishes_hv, publishes_wall, wall_version_after};
pub use refusals::{spent_accesses, spent_page, spent_version};
pub use tally::Tally;
