//! Edges of the six interrupt lines of a PC's timers, bursts of their messages, and lists of both
//! that take no memory.
//!
//! An edge is a change of the level of a line at a time in nanoseconds. The lines 0 and 8 are
//! those of the 8254 and of the MC146818, or of the HPET's timers 0 and 1 in their place (HPET
//! specification 1.0a, the bit LEG_RT_CNF); 20 to 23 are the inputs of the I/O APIC to which a
//! timer of the HPET may be routed here. Edges of one time are in order of line numbers; that
//! order and the choice of lines are this project's own.
//!
//! In a stretch of time in which nobody acts no line falls. Such a stretch is given by one time a
//! line, from which on it is up, and `emit` finds its edges from rise to rise.
//!
//! ```text
//! let before = Lines { levels: [false, true, false, false, false, false] };
//! let after = Lines { levels: [true, false, false, false, false, false] };
//! let mut edges = EdgeList::new();
//! changes(before, after, 4191, &mut edges);
//! // edges: line 0 up at 4191, line 8 down at 4191
//! ```
#![tactic(auto)]

mod bursts;
mod edges;
mod lines;
mod rises;
mod short_list;

pub use bursts::{BURST_PLACES, Burst, BurstList};
pub use edges::{EDGE_PLACES, Edge, EdgeList};
pub use lines::{LINE_NUMBERS, Lines, changes, is_line};
pub use rises::{emit, lines_at, next_rise};
pub use short_list::ShortList;
