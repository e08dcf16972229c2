//! A trace of phases, each run by one thread a processor.
//!
//! A phase is the records between two saves or moves. One thread reads a trace and puts it into a [`Feed`] by a
//! [`Writer`], as it goes; [`run_race`] takes it there and runs it. What it gives means nothing until the reader has
//! found that no line is refused as one thread would take the trace in file order; since refusals depend on counts alone,
//! no order of the threads is refused then. A [`Tally`] says which lines are: it has these counts, and no devices. In each
//! phase the processors share one board (`shared_board`), each takes its own records in their order, and appends its
//! answers to a text of its own. The text of a phase is the blocks of processor 0, then those of 1, and so on; the numbers
//! in them say in which order the board was asked. Then the save or the move is done on the board that the threads leave,
//! and the next phase opens with it.
//!
//! `race_text` (`specs/Phases.antt`) says what is printed: for each phase there is one legal history
//! (`board_history`) that has the entries of its records and no others.
//!
//! ```text
//! fn race<F: Feeding + Send + Sync>(rt: &HostRuntime, row: Row) {    // called at the marker type Brand
//!     let feed = Feed::<F>::new(row);
//!     let (ran, written) = join(rt, || run_race(rt, alloc, &OpenGate, &feed), || read(&mut Writer::new(alloc, &feed, 0, 0)));
//!     if ran.trace.agrees(&written) { .. }                           // then it ran the trace that was read
//! }
//!
//! fn read<F: Feeding>(writer: &mut Writer<'_, F>) {
//!     let mut tally = state.tally();
//!     writer.open(&state, &deliveries)?;
//!     tally.admit(0, 1_000, Access::Step)?;                          // refused as the board would
//!     tally.count(0, 1_000, Access::Step);
//!     writer.push(&Record { line: 3, cpu: 0, h: 1_000, call: Call::Act { access: Access::Step } })?;
//!     writer.end(End::Finish)?;
//!     writer.written()                                               // or writer.close(), where a line is refused
//! }
//! ```
#![tactic(auto)]

mod allowance;
mod batch;
mod draws;
mod feed;
mod halt;
mod means;
mod opening;
mod pace;
mod phase;
mod phases;
mod piece;
mod race;
mod records;
mod team;
mod text;
mod texts;
mod told;
mod work;
mod worker;
mod working;
mod writer;
mod written;

pub use feed::{Feed, Feeding, Row};
pub use halt::Halt;
pub use opening::Opening;
pub use phases::Phase;
pub use race::{Ran, run_race};
pub use records::RecordList;
pub use text::{SHORT, Text};
pub use writer::Writer;
pub use written::Written;
