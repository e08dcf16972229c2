//! A board moved from one host to another.
//!
//! The board runs over the gap between the two hosts, and then goes on by the new host's counter, which
//! has another rate and another count: its time and its TSCs don't jump back, each page of the
//! paravirtual clock is published anew, and tells its guest that it was stopped. How a guest's TSC and
//! kvmclock are carried over is this project's own choice, after what KVM's users do.
//!
//! ```text
//! let moved = moved(&board, 3_000_000, 500, 1_000_000_000)?;   // to 3 GHz, a second later
//! moved.state.now() == board.now() + 1_000_000_000
//! moved.edges                                                   // the changes of lines in the gap
//! ```
#![tactic(auto)]

mod moves;
mod outcome;

pub use board_meters::MoveFault;
pub use moves::moved;
pub use outcome::Moved;
