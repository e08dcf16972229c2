//! What a stretch of pulses brought.

use rtc_cycle::CycleEvents;

/// The events of a stretch of pulses. A first event is given by its pulse, the stretch's pulses being counted
/// from 1.
#[derive(Clone, Copy, Debug, PartialEq, Eq)]
pub struct RtcEvents {
    /// Periodic events and updates.
    pub cycle: CycleEvents,
    /// The pulse of the first update that the alarm matches.
    pub first_alarm: Option<u64>,
}

impl RtcEvents {
    /// No event.
    pub(crate) const NONE: RtcEvents = RtcEvents {
        cycle: CycleEvents {
            ticks: 0,
            first_tick: None,
            updates: 0,
            first_update: None,
        },
        first_alarm: None,
    };
}
