//! One counter of the Intel 8254 programmable interval timer: its six modes, binary and BCD counts,
//! GATE, latches and the order in which its bytes are read.
//!
//! The standard is the Intel 8254 data sheet; where it leaves a choice, ours is marked (own). A
//! counter takes time as CLK pulses and says at which of them OUT rises. Counter 0 of a PC,
//! dividing by 4:
//!
//! ```text
//! let mut counter = Counter::power_on(true);
//! counter.control(0x34);                  // both bytes of the count, mode 2, binary
//! counter.write_byte(4);
//! counter.write_byte(0);
//! let rises = counter.pulses(6);          // the load, 3, 2, 1 with OUT low, the next load, 3
//! rises.count == 1 && rises.first == Some(5)
//! counter.count() == 3
//! ```
#![tactic(auto)]

mod count;
mod counter;
mod division;
mod halves;
mod mode;
mod parts;
mod plan;
mod programming;
mod reading;
mod rises;
mod stretch;
mod table;

pub use counter::Counter;
pub use parts::{
    CounterField, CounterParts, bits_valid, ce_valid, cr_valid, flags_valid, latched_count_valid,
    latched_status_valid, part_valid, read_order_valid,
};
pub use rises::Rises;
pub use table::pulsed;
