//! The runner of the program `clockboard`: it reads a trace of what processors do to a clock board (8254,
//! MC146818, HPET, TSCs, pvclock pages), runs the board to the time of each record, and prints replies and edges.
//!
//! [`run`] is the one call. A trace is a text: a header, and records. A record names a processor, a count of the
//! host's counter (nanoseconds here, as the header says nothing else), and what is done:
//!
//! ```text
//! clockboard 1
//! begin
//! 0 0 out 43 34
//! 0 0 out 40 04
//! 0 0 out 40 00
//! 0 5000 step
//! 0 5000 in 40
//! end
//! ```
//!
//! Each record is answered by its line and its number, with the value where it reads one, and before that by the
//! edges of the lines up to then. The last line gives the time in nanoseconds, the number of accesses, the greatest
//! clock reading that was told, and the lines that are up:
//!
//! ```text
//! 3 1
//! 4 2
//! 5 3
//! edge 4191 0 up
//! 6 4
//! 7 5 04
//! final 5000 5 0 0
//! ```
//!
//! Both ends are of the caller's choice (`board_io`):
//!
//! ```text
//! let mut source = ReadSource::new(rt.stdin());
//! let mut sink = WriteSink::new(rt.stdout());
//! let status = run(&rt, rt.alloc(), &words, &mut source, &mut sink, &OpenGate);
//! ```
#![tactic(auto)]

mod check;
mod checker;
mod counting;
mod generate;
mod program;
mod race;
mod texts;
mod trace;

pub use program::run;
pub use trace_replay::Status;
