//! What the words after the program's name ask for.
//!
//! The words are read by the crate `clap`, as one command with the positionals `job`, `key`, `records` and `cpus` and
//! the flag `--state`. A number is what clap reads as one: decimal digits, maybe after a plus.
//!
//! ```text
//! replay --state       Command::Replay { shows_state: true }
//! gen 7 200000 16      Command::Gen(Size { key: 7, records: 200_000, cpus: 16 })
//! replay 7             Command::Unknown: `replay` takes no number
//! --help               Command::Help(Page::Overview)
//! gen --help           Command::Help(Page::OfGen)
//! ```
#![tactic(auto)]

mod command;
mod parse;

pub use command::{Command, Page, Size};
pub use parse::command_of;
