//! Tests of the text: sources and sinks, records, replies, generated traces and command lines.
#![tactic(auto)]

#[cfg(test)]
mod board_io_tests;
#[cfg(test)]
mod checks;
#[cfg(test)]
mod command_line_tests;
#[cfg(test)]
mod reply_text_tests;
#[cfg(test)]
mod trace_gen_tests;
#[cfg(test)]
mod trace_text_tests;
