//! The Intel 8254 programmable interval timer of a PC: three counters behind the ports 40h to 43h,
//! with their latches and read-back, and the system control port 61h.
//!
//! The standard is the Intel 8254 data sheet; port 61h is that of the PC AT; where they leave a
//! choice, ours is marked (own). GATE of counters 0 and 1 is always high, GATE of counter 2 is bit
//! 0 of port 61h. Counter 0 dividing by 4, with its status and count read back at nanosecond 1,677:
//!
//! ```text
//! let mut pit = Pit::power_on();
//! pit.write(0x43, 0x34);                  // counter 0, both bytes, mode 2, binary
//! pit.write(0x40, 4);
//! pit.write(0x40, 0);
//! let rises = pit.pulses(2);              // the load, 3
//! pit.write(0x43, 0xc2);                  // read back status and count of counter 0
//! pit.read(0x40, 1_677) == 0xb4           // the status: OUT high, loaded, 34h
//! pit.read(0x40, 1_677) == 3              // the count, low byte
//! ```
#![tactic(auto)]

mod parts;
mod pit;
mod ports;
mod read_back;

pub use parts::{PitFault, PitParts};
pub use pit::Pit;
pub use ports::{CONTROL_PORT, COUNTER_PORT, SYSTEM_PORT, is_pit_port};

/// Pulses a second of CLK: 1,193,182 Hz, a twelfth of the PC's 14.31818 MHz.
pub const PIT_HZ: u64 = 1_193_182;
