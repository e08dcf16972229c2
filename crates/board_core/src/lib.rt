//! The board: the time hardware that a PC guest sees, as one value.
//!
//! A board has an 8254, an MC146818 and an HPET with their six interrupt lines, a TSC, a local APIC's timer and a
//! page of the paravirtual clock for each processor, and the words of KVM's wall clock. A monitor hands it one
//! access at a time, with the count of the host's counter, and is handed the value, the changes of the lines, and
//! the number of the access. Between accesses nothing runs: the board goes to the time of an access by division.
//!
//! ```text
//! let mut board = BoardState::power_on(&setup);
//! let reply = board.access(0, 1_000, Access::PortIn { port: 0x40 })?;
//! // reply.number, reply.value, reply.edges
//! board.next_edge();  // when a line changes next
//! board.next_tick(0)   // when the timer of processor 0 ticks next
//! ```
#![tactic(auto)]

mod access;
mod acts;
mod apics;
mod board;
mod clock;
mod hv;
mod lag;
mod lazy;
mod moves;
mod parts;
mod processors;
mod refusals;
mod rises;

pub use board::BoardState;
pub use board_meters::{Meters, Tally, published_by, publishes_hv};
pub use board_types::{
    APIC_FORMAT, Access, BoardParts, HV_FORMAT, HvParts, LAST_FORMAT, LAST_VERSION, MESSAGE_FORMAT,
    MOST_ACCESSES, MSR_APIC_CURRENT, MSR_APIC_DIVIDE, MSR_APIC_INITIAL, MSR_APIC_LVT,
    MSR_HV_REFERENCE_TSC, MSR_HV_TIME_REF_COUNT, MSR_KVM_SYSTEM_TIME, MSR_KVM_WALL_CLOCK, MSR_TSC,
    MSR_TSC_ADJUST, MSR_TSC_DEADLINE, ProcessorParts, Ran, Refusal, Reply, SECOND_NS, SLEW_MAX_NS,
    Setup, TickSource, Value, processors_of, timers_of,
};
pub use hv::NO_HV;
pub use lag::{Lag, NO_LAG, is_passive};
pub use lazy::LazyBoard;
