//! The messages of one timer in a stretch of time, and a list of at most eight such bursts.
use crate::short_list::ShortList;

/// How many bursts a `BurstList` has places for: one for each timer of an HPET of eight.
pub const BURST_PLACES: usize = 8;

/// The messages that a timer sends in a stretch of time, all to one address, at even distances
/// (HPET specification 1.0a, "Timer N FSB Interrupt Route Register"; that they are one burst
/// is this project's own choice).
#[derive(Clone, Copy, Debug, Default, PartialEq, Eq)]
#[repr(C)]
pub struct Burst {
    /// The number of the timer.
    pub timer: u8,
    /// The nanosecond of the first message.
    pub first: u64,
    /// How many messages are sent.
    pub count: u64,
    /// The nanoseconds from one message to the next; 0 where there is one alone.
    pub every: u64,
    /// The address to which each message is written.
    pub address: u32,
    /// What is written there.
    pub data: u32,
}

/// A list of at most eight bursts.
pub type BurstList = ShortList<Burst, BURST_PLACES>;
