//! A board as bytes, for a file or another host, and back.
//!
//! A saved state has a magic word, its version, which is the board's format, and then all fields of the
//! board, numbers with their lowest byte first. One board has one spelling: bytes are those of a board
//! exactly where each field has its condition and nothing follows the last; else the first field
//! at fault is told by its place. The format is this project's own.
//!
//! ```text
//! let bytes = encode(alloc, &board)?;
//! decode(&bytes)                      // Ok: the same board
//! decode(&bytes[..9])                 // Err: Short, at place 9
//! ```
#![tactic(auto)]

mod apics;
mod appending;
mod decoding;
mod encoding;
mod fault;
mod faults;
mod front;
mod lines;
mod messages;
mod pieces;
mod reference;
mod rest;
mod sizes;
mod table;
mod whole;

pub use decoding::decode;
pub use encoding::encode;
pub use fault::{StateFault, StateKind};
