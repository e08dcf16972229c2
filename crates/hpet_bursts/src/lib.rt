//! The messages that the timers of an HPET send in a stretch of time, as bursts.
//!
//! A message timer writes its data to its address at each match, in the place of a tick of its line
//! (IA-PC HPET specification 1.0a, section 2.3.10). In a stretch in which nobody writes a register,
//! the messages of a timer come at even distances, so one burst says them all: the timer, the first
//! nanosecond, how many, the nanoseconds from one to the next, address and data. Address and data
//! are those at the start of the stretch, since only a write changes them.
//!
//! ```text
//! let mut hpet = Hpet::power_on(8, true);
//! hpet.write(0x140, 4, 0x684c);                     // timer 2: periodic, enabled, messages
//! hpet.write(0x148, 8, 100);                        // its comparator and period
//! hpet.write(0x150, 8, 0xfee0_0000_0000_0031);      // its address and data
//! hpet.write(0x010, 4, 1);                          // ENABLE
//! let mut bursts = BurstList::new();
//! bursts_in(&hpet, 0, 3_500, &mut bursts);
//! // bursts: timer 2, first at 1000 ns, 3 of them, 1000 ns apart, to fee00000, data 31
//! ```
#![tactic(auto)]

mod burst;
mod next;
mod run;

pub use next::next_message;
pub use run::bursts_in;
