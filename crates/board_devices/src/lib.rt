//! The devices of a board that run with time: an 8254, an MC146818 and an HPET, the tick line of
//! each source of ticks, and the six interrupt lines that they drive.
//!
//! Time is handed in, in nanoseconds; what comes out are the edges of the lines. The definitions
//! step nanosecond by nanosecond: the pulses that fall in one, in the order 8254, MC146818, HPET,
//! and then the catch-up point. The code divides: each device takes its pulses of a stretch at
//! once, and each line goes up once at most.
//!
//! ```text
//! let mut devices = Devices::power_on(&setup);
//! let mut edges = EdgeList::new();
//! devices.act(Act::PitWrite { port: 0x43, byte: 0x34 }, 0, &mut edges);
//! devices.run_to(0, 5_000, &mut edges);
//! ```
#![tactic(auto)]

mod acks;
mod act;
mod clock;
mod counter;
mod devices;
mod found_up;
mod levels;
mod lines;
mod messages;
mod next_edge;
mod parts;
mod port_reads;
mod pulse_counts;
mod quiet;
mod run;
mod stretch;

pub use act::Act;
pub use devices::Devices;
pub use parts::DeviceParts;
