//! What a trace prints for a record, and what ends a phase of it.
//!
//! A replay and a race print the same blocks: the edges of an access with who gets a rise, its messages, and its line
//! (`reply_text`). A save or a move ends a phase: [`end_phase`] does it and appends its block, or says why it is refused.
//!
//! ```text
//! access_block(line, &reply, &deliveries, None, &mut out)?;
//! end_phase(&End::Save { line, cpu: 0, h: 1_000 }, &mut board, &deliveries, &mut out)?
//! ```
#![tactic(auto)]

mod blocks;
mod deliveries;
mod ends;
mod records;
mod refusals;

pub use blocks::access_block;
pub use deliveries::Deliveries;
pub use ends::{End, NewHost, end_phase};
pub use records::{Answer, Record};
pub use refusals::{refused_access, refused_move, refused_time};
