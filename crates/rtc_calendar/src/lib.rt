//! The time, calendar and alarm bytes of the MC146818, the PC's real time clock, and what an update does to
//! them (Motorola MC146818 data sheet, "Time, calendar, and alarm locations" and "Update cycle").
//!
//! An update reads the seven time bytes in the form that register B gives, adds a second, and writes all
//! seven back in that form. So a clock that shows the last second of the century begins a new one:
//!
//! ```text
//! let form = Form { binary: false, hours24: true };
//! let last = TimeBytes { sec: 0x59, min: 0x59, hour: 0x23, wday: 0x07, date: 0x31, month: 0x12, year: 0x99 };
//! after(last, form, 1) == TimeBytes { sec: 0, min: 0, hour: 0, wday: 1, date: 1, month: 1, year: 0 }
//! ```
#![tactic(auto)]

mod alarms;
mod bytes;
mod calendar;
mod passing;
mod stretch;
mod updates;
mod wanted;

pub use alarms::{first_match, matches};
pub use bytes::{is_spelt, spelt};
pub use calendar::month_length;
pub use passing::{Elapsed, let_pass};
pub use updates::{after, updated};

/// The seven time bytes, as the clock's registers 0, 2, 4 and 6 to 9 hold them: seconds, minutes, hours, day
/// of the week (1 is Sunday), date, month, and year of the century. Any bytes are allowed.
#[derive(Clone, Copy, Debug, PartialEq, Eq)]
pub struct TimeBytes {
    pub sec: u8,
    pub min: u8,
    pub hour: u8,
    pub wday: u8,
    pub date: u8,
    pub month: u8,
    pub year: u8,
}

/// How time bytes spell numbers, by register B (data sheet, "Register B").
#[derive(Clone, Copy, Debug, PartialEq, Eq)]
pub struct Form {
    /// Binary numbers (DM is 1), or else two decimal digits a byte (BCD).
    pub binary: bool,
    /// Hours 0 to 23 (24/12 is 1), or else 1 to 12 with bit 7 for PM.
    pub hours24: bool,
}

/// The three alarm bytes, of the clock's registers 1, 3 and 5. A byte of C0h to FFh matches anything.
#[derive(Clone, Copy, Debug, PartialEq, Eq)]
pub struct Alarm {
    pub sec: u8,
    pub min: u8,
    pub hour: u8,
}
