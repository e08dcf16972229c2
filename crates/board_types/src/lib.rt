//! What is said to a board and heard from it: how it is set up, the accesses that it takes, what it answers, why
//! it refuses, and all that it holds.
//!
//! These are plain types without a device, so that a reader of traces, a writer of answers and a
//! reader of saved states can be built beside the board.
//!
//! ```text
//! let access = Access::PortOut { port: 0x43, byte: 0x34 };
//! access.legal(1, 1) == true
//! Access::Refresh { page: 1 }.legal(1, 1) == false
//! ```
#![tactic(auto)]

mod access;
mod parts;
mod reply;
mod setup;

pub use access::{
    Access, MSR_APIC_CURRENT, MSR_APIC_DIVIDE, MSR_APIC_INITIAL, MSR_APIC_LVT,
    MSR_HV_REFERENCE_TSC, MSR_HV_TIME_REF_COUNT, MSR_KVM_SYSTEM_TIME, MSR_KVM_WALL_CLOCK, MSR_TSC,
    MSR_TSC_ADJUST, MSR_TSC_DEADLINE, TickSource, is_hpet_place, is_port,
};
pub use parts::{BoardParts, HvParts, LAST_VERSION, MOST_ACCESSES, ProcessorParts};
pub use reply::{Ran, Refusal, Reply, Value};
pub use setup::{
    APIC_FORMAT, HV_FORMAT, LAST_FORMAT, MESSAGE_FORMAT, SECOND_NS, SLEW_MAX_NS, Setup,
    has_messages, processors_of, timers_of,
};
