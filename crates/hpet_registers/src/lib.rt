//! The HPET's block of registers (IA-PC HPET specification 1.0a): capabilities, configuration,
//! status, main counter, and three or eight timers, with message registers where there are eight
//! and they are wanted.
//!
//! Time comes in as pulses of 10 ns; what comes out is how often each timer matched, and when
//! first.
//!
//! ```text
//! let mut hpet = Hpet::power_on(3, false);
//! hpet.write(0x100, 8, 0x2804);           // timer 0: enabled, one-shot, line 20
//! hpet.write(0x108, 8, 100);              // its comparator
//! hpet.write(0x010, 4, 1);                // ENABLE
//! let mut matches = [Matches::NONE; 8];
//! hpet.pulses(5_000, &mut matches);       // matches[0]: one, at pulse 100
//! ```
#![tactic(auto)]

mod access;
mod hpet;
mod parts;
mod plan;
mod register;
mod stretch;

pub use hpet::{HPET_HZ, Hpet};
pub use parts::{HpetField, HpetParts};
pub use register::Register;
