//! The host's counter as a clock: nanoseconds out of counts, by an anchor.
//!
//! An anchor says at which count a clock was set to which time, and how fast the counter counts; the time
//! at a later count follows by division. So do the Linux documents on KVM timekeeping describe how a
//! monitor derives a guest's time from the host's counter; that the quotient is rounded down, the range of
//! the rate and the limit of 2^59 ns are the project's (own).
//!
//! ```text
//! let anchor = Anchor { khz: 3_000_000, start: 500, base_ns: 1_000 };
//! anchor.time(3_500) == Ok(2_000)
//! anchor.time(499) == Err(TimeFault::BeforeStart { start: 500 })
//! ```
#![tactic(auto)]

ghost use Rattle.std.specs.Prelude.{◌≡◌, ℕ, ◌+◌, ◌-◌, ◌*◌, ◌/◌, ◌<◌, ◌≤◌, IfOk, IfErr};
ghost use Rattle.clk_units.specs.Ranges.{IsKhz};

use clk_units::RANGE_NS;

/// Nanoseconds in a millisecond, of which a counter of 1 kHz counts one.
const MILLISECOND_NS: u64 = 1_000_000;

/// What time a clock gave at one count of the host's counter, and how fast that counter counts.
#[derive(Clone, Copy, Debug, PartialEq, Eq)]
#[repr(C)]
pub struct Anchor {
    /// Counts in a millisecond.
    pub khz: u64,
    /// The count at which the clock was set.
    pub start: u64,
    /// The time to which it was set there, in nanoseconds.
    pub base_ns: u64,
}

/// Why a count of the host's counter has no time.
#[derive(Clone, Copy, Debug, PartialEq, Eq)]
pub enum TimeFault {
    /// The count lies before that of the anchor, which is given.
    BeforeStart { start: u64 },
    /// The time, which is given in nanoseconds, is 2^59 or more.
    OutOfRange { ns: u128 },
}

impl Anchor {
    ghost use Rattle.host_counter.specs.Time.{time_at, set_anew, IsTimeAt, time_fault, IsJustBehind};
    ghost use Rattle.host_counter.specs.declared.Anchor.{Anchor};

    /// The time at count `h` in nanoseconds, rounded down. It is below `clk_units::RANGE_NS`. The rate is
    /// `clk_units::KHZ_MIN` to `clk_units::KHZ_MAX`.
    #[tactic(auto, unfolding(crate::specs::Time::time_at))]
    pub fn time(&self, h: u64) -> Result<u64, TimeFault>
        requires { IsKhz self.now.khz }
        ensures ok { IfOk result (IsTimeAt self.now h) }
        ensures fault { IfErr result (λ f. time_fault self.now h ≡ Some f) }

        // Time never falls as the counter grows, and a clock that is set anew goes on: it is at each later
        // count what it would have been, or a nanosecond less.
        ensures never_falls { (earlier : ℕ) → earlier ≤ h →
            IfOk result (λ ns. time_at self.now earlier ≤ ns) }
        ensures goes_on { IfOk result (λ ns. (later : ℕ) → h ≤ later →
            IsJustBehind (time_at (set_anew self.now h ns) later) (time_at self.now later)) }
    {
        if h < self.start {
            return Err(TimeFault::BeforeStart { start: self.start });
        }
        let ns = u128::from(self.base_ns) + since_ns(h - self.start, self.khz);
        if ns < u128::from(RANGE_NS) {
            Ok(ns as u64)
        } else {
            Err(TimeFault::OutOfRange { ns })
        }
    }

    /// The time at count `h` in nanoseconds, of a count that is known to have one.
    pub fn time_of(&self, h: u64) -> u64
        requires rate { IsKhz self.now.khz }
        requires started { self.now.start ≤ h }
        requires in_range { time_at self.now h < RANGE_NS }
        ensures { result ≡ time_at self.now h }
    {
        let counts = h - self.start;
        let whole_ns = counts / self.khz * MILLISECOND_NS;
        self.base_ns + whole_ns + counts % self.khz * MILLISECOND_NS / self.khz
    }
}

/// The nanoseconds of so many counts, rounded down: whole milliseconds and the rest apart.
fn since_ns(counts: u64, khz: u64) -> u128
    requires { IsKhz khz }
    ensures { result ≡ counts * 1000000 / khz }
{
    let rest_ns = counts % khz * MILLISECOND_NS / khz;
    u128::from(counts / khz) * u128::from(MILLISECOND_NS) + u128::from(rest_ns)
}
