//! How a board is set up.
ghost use Rattle.std.specs.Prelude.{◌≡◌, ◌≤◌};
ghost use Rattle.board_types.specs.Setup.{timers_of, has_messages, processors_of, setup_by_default, IsSetup};
ghost use Rattle.board_types.specs.declared.setup.TheConstants.{LAST_FORMAT};

use host_counter::Anchor;
use rtc_calendar::TimeBytes;
use tick_policy::Policy;

/// The greatest number of nanoseconds from one catch-up point to the next (own).
pub const SLEW_MAX_NS: u64 = 1_000_000_000;

/// The last format that is built.
pub const LAST_FORMAT: u8 = 5;

/// The first format that has timers of local APICs.
pub const APIC_FORMAT: u8 = 3;

/// The first format that has Hyper-V's reference time.
pub const HV_FORMAT: u8 = 4;

/// The first format in which the HPET's timers send messages.
pub const MESSAGE_FORMAT: u8 = 5;

/// How many nanoseconds a second has.
pub const SECOND_NS: u32 = 1_000_000_000;

/// What a board is at power on.
#[derive(Clone, Copy, Debug, PartialEq, Eq)]
pub struct Setup {
    /// The format of the board, 1 to `LAST_FORMAT`. From 2 on it has more processors and timers, and counts of rises.
    pub format: u8,
    /// The rate, first count and first time of the host's counter; the time is below `RANGE_NS`.
    pub anchor: Anchor,
    /// The rate of the guest's TSC in kHz, which is in range as the host's is.
    pub guest_khz: u64,
    /// How many processors there are: 1 to 16, and to 64 from format 2 on.
    pub cpus: u8,
    /// What becomes of a tick of the 8254 that finds its line up.
    pub pit: Policy,
    /// The same for the MC146818.
    pub rtc: Policy,
    /// The same for each timer of the HPET.
    pub hpet: Policy,
    /// Nanoseconds from one catch-up point to the next, 1 to `SLEW_MAX_NS`.
    pub slew_ns: u64,
    /// The wall clock at power on: seconds, and nanoseconds below `SECOND_NS`.
    pub wall_sec: u32,
    pub wall_nsec: u32,
    /// The time of the MC146818.
    pub time: TimeBytes,
}

impl Setup {
    /// A host and a guest of 1 GHz from count 0 and time 0, one processor, ticks under `Delay`, a catch-up point each
    /// millisecond, a wall clock of 0, and midnight of the first day of the year 0 (own).
    pub fn by_default(format: u8) -> Setup
        ensures value { result ≡ setup_by_default format }
        ensures valid { 1 ≤ format → format ≤ LAST_FORMAT → IsSetup result }
    {
        Setup {
            format,
            anchor: Anchor {
                khz: 1_000_000,
                start: 0,
                base_ns: 0,
            },
            guest_khz: 1_000_000,
            cpus: 1,
            pit: Policy::Delay,
            rtc: Policy::Delay,
            hpet: Policy::Delay,
            slew_ns: 1_000_000,
            wall_sec: 0,
            wall_nsec: 0,
            time: TimeBytes {
                sec: 0,
                min: 0,
                hour: 0,
                wday: 1,
                date: 1,
                month: 1,
                year: 0,
            },
        }
    }
}

/// How many timers the HPET has in a format.
pub fn timers_of(format: u8) -> u8
    ensures { result ≡ timers_of format }
{
    if format <= 1 { 3 } else { 8 }
}

/// Whether the HPET's timers have message registers in a format.
pub fn has_messages(format: u8) -> bool
    ensures { result ≡ has_messages format }
{
    MESSAGE_FORMAT <= format
}

/// How many processors a board of a format may have.
pub fn processors_of(format: u8) -> u8
    ensures { result ≡ processors_of format }
{
    if format <= 1 { 16 } else { 64 }
}
