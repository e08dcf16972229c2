//! A burst of messages with its delivery, and a list of at most eight of them.
use crate::deliveries::Delivery;
use irq_edges::{BURST_PLACES, Burst, ShortList};

/// The messages of a timer in a stretch of time, and who gets them.
#[derive(Clone, Copy, Debug, Default, PartialEq, Eq)]
#[repr(C)]
pub struct Sent {
    /// The messages.
    pub burst: Burst,
    /// Who gets each of them.
    pub to: Delivery,
}

/// A list of at most eight bursts that were sent.
pub type SentList = ShortList<Sent, BURST_PLACES>;
