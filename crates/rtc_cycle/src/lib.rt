//! The divider of the MC146818: when periodic interrupts come, and when a second passes.
//!
//! The chip counts the pulses of a 32,768 Hz crystal down in a chain of 15 stages. The rate RS of register A
//! picks the stage whose edges are periodic events; the whole chain, once round, begins an update cycle, at
//! whose end the time bytes change (Motorola MC146818 data sheet, "Divider stages", "Periodic interrupt
//! selection" and "Update cycle"). The divider bits DV of register A run the chain or hold it, and SET of
//! register B lets no update cycle begin.
//!
//! ```text
//! let mut divider = Divider::power_on();      // rate 6: 1,024 events a second
//! let events = divider.pulses(16_449);        // a little more than half a second
//! events.ticks == 514
//! events.first_tick == Some(32)
//! events.updates == 1                         // the first second turns half a second after power on
//! events.first_update == Some(16_449)
//! ```
#![tactic(auto)]

mod divider;
mod events;
mod parts;
mod recurring;
mod stretch;

pub use divider::Divider;
pub use events::CycleEvents;
pub use parts::DividerParts;
