//! The outside of the board: where the bytes of a trace come from, where the printed text goes, and
//! a gate that a test can hold the workers of `race` at.
//!
//! Contracts read the log of an end's calls: all bytes that a [`Source`] has given, how often it was at the end of its
//! input, and all bytes that a [`Sink`] has accepted. They also know which bytes a source has left, and what a sink
//! holds, where those are known. `Failed` comes only where a count of faults rose, and a call that is well leaves the
//! count, so a caller's contract can name the cause. [`MemSource`] and [`MemSink`] are in memory and fail on demand;
//! [`ReadSource`] and [`WriteSink`] adapt std's readers and writers.
//!
//! ```text
//! let mut source = MemSource::new(bytes, failing, 4096);
//! let mut piece = [0; 4096];
//! let n = source.take(&mut piece)?; // 0 at the end
//! ```
#![tactic(auto)]

pub use adapters::{ReadSource, WriteSink};
pub use gate::{Gate, OpenGate};
pub use memory::{MemSink, MemSource};
pub use sink::Sink;
pub use source::{Failed, Source};

mod adapters;
mod gate;
mod memory;
mod sink;
mod source;
