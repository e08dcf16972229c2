//! What happened to a board: one history of its accesses, of the reads of its pages, and of the clamp.
//!
//! A board is asked by many callers, some of them beside its lock. What they were answered is put into one list, an
//! [`Entry`] for each point at which something happened, with the number of the caller's pass. Such a history is
//! legal where one board, asked by one thread in that order, answers each entry as it is there
//! (`specs/History.antt`). No program keeps the list: it is what contracts speak of.
//!
//! ```text
//! Opened { state }                                            the board as it was handed over
//! Board { pass: 0, cpu: 0, h: 1_000, access: Step, reply }    an access, with its number and its edges
//! PageRead { pass: 1, cpu: 0, h: 2_000, page, locked: false } a page as it was read without the lock
//! Clamp { pass: 1, cpu: 0, reading: 900, clock: 1_000 }       the clock that was answered for that reading
//! HvRead { pass: 1, h: 2_000, page, locked: true }            the reference page as it was read under the lock
//! ```
#![tactic(auto)]

mod answer;
mod entry;
mod table;

pub use answer::{answer_by, hv_answer_by};
pub use entry::{Entry, opened};
pub use table::{page_published, read_entry, table_page};
