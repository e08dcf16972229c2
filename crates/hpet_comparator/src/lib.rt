//! The main counter of the HPET (IA-PC HPET specification 1.0a, section 2.3.7), 64 bits that go up
//! by one at each pulse and go on from 0 after 2^64 - 1, and one of its timers (sections 2.3.8 and
//! 2.3.9): its configuration, its comparator, one-shot or periodic, of 32 or 64 bits, and its
//! matches with the main counter. Registers are written whole or by either half of 32 bits.
//!
//! ```text
//! let mut counter = MainCounter { value: 0xffff_fffe };
//! counter.pulses(3);                      // counter.value == 0x1_0000_0001
//! counter.write(4, true, 7);              // counter.value == 0x7_0000_0001
//! let mut timer = Timer::power_on();
//! timer.write_config(0x284c);             // enabled, periodic, VAL_SET, line 20
//! timer.write_comparator(8, false, 100);  // comparator and period
//! let matches = timer.pulses(0, 1_000);   // matches.count == 10, matches.first == Some(100)
//! ```
#![tactic(auto)]

mod comparator;
mod config;
mod counter;
mod part;
mod parts;
mod stretch;
mod timer;

pub use counter::MainCounter;
pub use part::write_part;
pub use parts::{TimerField, TimerParts, is_comparator_valid, is_config_valid, is_period_valid};
pub use stretch::Matches;
pub use timer::Timer;
