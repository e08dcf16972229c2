//! The timers of a board's local APICs, one for each of up to 64 processors, with their tick lines.
//!
//! Time is handed in, in nanoseconds, with what gives the TSC of each processor at a nanosecond. A
//! mask of the timers that aren't idle makes a run of idle timers one test.
//!
//! ```text
//! let mut apics = LocalApics::power_on(2);
//! apics.write(1, ApicRegister::Divide, 0xb);      // divide by 1
//! apics.write(1, ApicRegister::Lvt, 0x2_0030);    // periodic, vector 30h
//! apics.write(1, ApicRegister::Initial, 100);
//! apics.run(&clock, &processors, 0, 250);
//! // two ticks are due on the line of processor 1: one raised it, the other is lost
//! apics.eoi(1);
//! ```
#![tactic(auto)]

mod apics;
mod parts;
mod place;
mod span;
mod still;

pub use apics::LocalApics;
pub use parts::ApicsParts;
pub use span::TscClock;
