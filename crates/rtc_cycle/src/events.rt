//! What a stretch of pulses brought.

/// The events of a stretch of pulses. A first event is given by its pulse, the stretch's pulses being counted
/// from 1.
#[derive(Clone, Copy, Debug, PartialEq, Eq)]
pub struct CycleEvents {
    /// The number of periodic events.
    pub ticks: u64,
    /// The pulse of the first periodic event.
    pub first_tick: Option<u64>,
    /// The number of update cycles that ended: each changes the time bytes once.
    pub updates: u64,
    /// The pulse at which the first of them ended.
    pub first_update: Option<u64>,
}
