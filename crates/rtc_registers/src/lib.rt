//! The MC146818, the PC's real time clock: its 128 bytes, reached by an index port (70h) and a data port (71h).
//!
//! The first fourteen bytes are the time, the alarm and registers A to D, by the Motorola MC146818 data sheet;
//! the rest is plain memory. Time comes in as pulses of the crystal, 32,768 a second, and goes out as events
//! and as the flags of register C.
//!
//! ```text
//! let mut rtc = Rtc::power_on(TimeBytes { sec: 0x59, min: 0x59, hour: 0x23, wday: 7, date: 0x31, month: 0x12, year: 0x99 });
//! rtc.write_index(0x0b);
//! rtc.write(0x42);                            // PIE: periodic interrupts, 1,024 a second
//! rtc.pulses(32).cycle.first_tick == Some(32)
//! rtc.irqf()                                  // until register C is read
//! rtc.write_index(0x0c);
//! rtc.read() == 0xc0                          // IRQF and PF
//! rtc.read() == 0x00
//! ```
#![tactic(auto)]

mod access;
mod events;
mod parts;
mod plan;
mod registers;
mod rtc;
mod stretch;

pub use events::RtcEvents;
pub use parts::{RtcField, RtcParts, bytes_valid, cycle_valid, divider_valid, index_valid};
pub use rtc::Rtc;

/// Pulses of the crystal in a second.
pub const RTC_HZ: u64 = 32_768;
