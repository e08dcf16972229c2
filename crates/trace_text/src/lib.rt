//! The lines of a trace, as the items that they are: a header, records, and the end.
//!
//! A trace is text: a header that says how a board is set up, then one record a line, by a processor at a count of
//! the host's counter. `Reading` takes the lines one by one and answers for each what it is, or why the trace is
//! refused there. It looks at each byte of a line once or twice, takes no memory, and what it answers depends on the
//! lines alone. The format is this project's own; `docs/FORMATS.md` has it whole.
//!
//! ```text
//! let mut reading = Reading::new();
//! reading.take_line(b"clockboard 1") == Ok(Item::Part)
//! reading.take_line(b"begin")                             // Ok(Item::Begun(header)), with the setup by default
//! reading.take_line(b"0 10 step")                         // Ok(Item::Next(record)), of processor 0 at count 10
//! reading.take_line(b"0 9 step")                          // Err: line 4, CounterFell { before: 10 }
//! ```
#![tactic(auto)]

mod bytes;
mod digits;
mod faults;
mod front;
mod groups;
mod header;
mod header_lines;
mod jobs;
mod reading;
mod records;
mod setup_line;
mod state;
mod usual;
mod words;

pub use faults::RecordFault;
pub use front::Front;
pub use header::{Begin, Head, Header};
pub use reading::{Item, Reading, ReadingParts, Stage};
pub use records::Body;
pub use reply_text::Reason;
pub use trace_records::{Asked, Call, ClockRead, Job, Record};
