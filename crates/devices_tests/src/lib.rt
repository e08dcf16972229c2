//! Tests of a board's devices together: its types, its local APIC timers, its 8254, MC146818 and HPET.
#![tactic(auto)]

#[cfg(test)]
mod board_devices_tests;
#[cfg(test)]
mod board_types_tests;
#[cfg(test)]
mod checks;
#[cfg(test)]
mod local_apics_tests;
