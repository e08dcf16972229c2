//! Reads the lines of a trace from a source, has each answered, and puts what they print into a sink.
//!
//! The source is taken piece by piece. Each line whose end was given is answered, and its block is put, before more is
//! taken; nothing is taken after the line that ended the trace. What was read and written when a run ends is said by
//! the clauses of `answer_lines`, as functions of the bytes that were given.
#![tactic(auto)]

mod answerer;
mod ended;
mod feed;
mod lines;
mod output;
mod program;

pub use answerer::Answerer;
pub use ended::Ended;
pub use lines::{LINE_MAX, STATE_LINE_MAX, limit_of};
pub use output::{put_all, say, say_each};
pub use program::{MEMORY_FAULT, answer_lines};
