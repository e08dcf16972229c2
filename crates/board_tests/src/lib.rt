//! Tests of a whole board: its accesses, its history, its reset, its saved state and its move.
#![tactic(auto)]

#[cfg(test)]
mod board_core_tests;
#[cfg(test)]
mod board_history_tests;
#[cfg(test)]
mod board_meters_tests;
#[cfg(test)]
mod board_reset_tests;
#[cfg(test)]
mod boards;
#[cfg(test)]
mod byte_table_tests;
#[cfg(test)]
mod checks;
#[cfg(test)]
mod save_state_tests;
#[cfg(test)]
mod transfer_tests;
