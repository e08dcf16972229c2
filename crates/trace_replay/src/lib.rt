//! A trace that is replayed: its records are answered by a plain board, one after the other.
//!
//! [`Replay`] answers the lines that `trace_loop` hands it. A record is answered by its block (`trace_blocks`), or the trace
//! ends there with a line that says why. [`run_soak`] replays a generated trace and prints sums alone.
//!
//! ```text
//! let mut replay = Replay::new(false);
//! let status = status_of(answer_lines(alloc, &mut replay, &mut source, &mut sink));
//! ```
#![tactic(auto)]

mod deliveries;
mod kept;
mod moves;
mod records;
mod replay;
mod soak;
mod status;

pub use deliveries::deliveries_of;
pub use replay::{Replay, end, no_routes, opening};
pub use soak::run_soak;
pub use status::{Status, Verdict, status_of, stop, verdict_status};
