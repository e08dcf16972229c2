//! Tests of the timers and counters of a PC guest, and of what stands below them: what no clause of theirs says.
#![tactic(auto)]

#[cfg(test)]
mod checks;
#[cfg(test)]
mod clk_units_tests;
#[cfg(test)]
mod edge_hooks_tests;
#[cfg(test)]
mod host_counter_tests;
#[cfg(test)]
mod hpet_bursts_tests;
#[cfg(test)]
mod hpet_comparator_tests;
#[cfg(test)]
mod hpet_registers_tests;
#[cfg(test)]
mod hv_page_tests;
#[cfg(test)]
mod irq_edges_tests;
#[cfg(test)]
mod lapic_timer_tests;
#[cfg(test)]
mod numbers;
#[cfg(test)]
mod pit_counter_tests;
#[cfg(test)]
mod pit_readback_tests;
#[cfg(test)]
mod pvclock_page_tests;
#[cfg(test)]
mod rtc_calendar_tests;
#[cfg(test)]
mod rtc_cycle_tests;
#[cfg(test)]
mod rtc_registers_tests;
#[cfg(test)]
mod tick_policy_tests;
#[cfg(test)]
mod tsc_scale_tests;
