//! The lines that a replay prints: replies, edges, messages, pages, clock readings, saved states, and how it ended.
//!
//! Each call appends exactly one line with its end, the byte 0Ah, to a text. A line's words are parted by single
//! spaces; numbers are decimal without leading zeros, hexadecimal digits are lower case. A call takes no memory
//! where the text has room for the line; where there is none to be had the text stays as it was. The format is
//! this project's own; `docs/FORMATS.md` has it whole.
//!
//! ```text
//! let mut out = Vec::new(alloc);
//! edge_line(&Edge { at: 4191, line: 0, up: true }, None, &mut out)?;   // "edge 4191 0 up\n"
//! let fell = Reason::CounterFell { before: 10 };
//! refused_line(4, Refused::Invalid(fell), &mut out)?;                  // "refused 4 fell 10\n"
//! ```
#![tactic(auto)]

mod clock;
mod counted;
mod digits;
mod edges;
mod ends;
mod forward;
mod replies;
mod saved;
mod soak;
mod tail;

pub use clock::{clock_line, hv_line, page_line};
pub use counted::CountedLines;
pub use edges::edge_line;
pub use ends::{Reason, Refused, final_line, refused_line};
pub use replies::{board_line, msg_line, value_line};
pub use saved::{move_line, save_line, state_line};
pub use soak::soak_line;
