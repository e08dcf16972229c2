//! Tests of the program's call `run`: from the bytes of a trace to what is printed.
#![tactic(auto)]

#[cfg(test)]
mod checks;
pub mod known;
#[cfg(test)]
mod trace_runner_tests;
