//! The timer of a local APIC (Intel's Software Developer's Manual, volume 3, "APIC Timer" and
//! "TSC-Deadline Mode"): one-shot, periodic, and by a deadline of the processor's TSC.
//!
//! The timer's clock is one count a nanosecond (own), which the divide configuration slows down. A
//! fire isn't yet an interrupt: whoever keeps the timer asks for its `ticks` and its `vector`.
//!
//! ```text
//! let mut timer = ApicTimer::power_on();
//! timer.write_divide(0xb);                // divide by 1
//! timer.write_lvt(0x2_0030);              // periodic, vector 30h
//! timer.write_initial(100);
//! timer.run(250) == Fires { count: 2, first: Some(100) }
//! timer.current() == 50
//! ```
#![tactic(auto)]

mod deadline;
mod parts;
mod registers;
mod stretch;
mod timer;

pub use deadline::{first_reach, guest_count_at};
pub use parts::{ApicField, ApicParts};
pub use registers::ApicRegister;
pub use stretch::Fires;
pub use timer::ApicTimer;
