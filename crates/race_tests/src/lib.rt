//! Tests of a board that threads share, and of the phases of a race.
#![tactic(auto)]

#[cfg(test)]
mod checks;
#[cfg(test)]
mod race_phase_tests;
#[cfg(test)]
mod shared_board_tests;
#[cfg(test)]
mod worker_turns_tests;
