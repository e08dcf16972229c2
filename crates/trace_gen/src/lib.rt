//! Generated traces: the text of a trace of pseudo-random accesses, made from a key, for tests and for soaks.
//!
//! A [`Generator`] is the bytes of its trace that are still to come. It holds one line at a time, so the memory that
//! it takes doesn't grow with the trace, and it takes none from an allocator. [`GenSource`] hands the same bytes out
//! as a source of `board_io`, so that whatever reads a trace reads a generated one.
//!
//! The trace switches on the pvclock page of each processor and the HPET, and then has as many records as were asked
//! for. Each takes its kind, its time and its byte from the next number of a linear congruential sequence, whose
//! multiplier and increment are Knuth's for MMIX. The format is this project's own; `docs/FORMATS.md` has it.
//!
//! ```text
//! let mut generator = Generator::new(1, 1, 1);
//! let mut bytes = [0; 4096];
//! let n = generator.fill(&mut bytes); // 92
//! ```
//!
//! ```text
//! clockboard 1
//! guest 2000000
//! cpus 1
//! begin
//! 0 0 wrmsr 4b564d01 1
//! 0 0 hw 10 4 1
//! 0 34774 step
//! end
//! ```
#![tactic(auto)]

mod course;
mod draws;
mod generator;
mod piece;
mod records;
mod source;

pub use generator::{CPUS_MAX, Generator, RECORDS_MAX};
pub use source::GenSource;
