//! The host's clock.
ghost use Rattle.std.specs.Prelude.{◌≡◌, ◌<◌, ℕ, OnOk, IfErr};
ghost use Rattle.clk_units.specs.declared.ranges.TheConstants.{RANGE_NS};
ghost use Rattle.clk_units.specs.Ranges.{IsKhz};
ghost use Rattle.host_counter.specs.Time.{time_at, time_fault};
ghost use Rattle.host_counter.specs.Time.{HasTime};

use clk_units::RANGE_NS;
use host_counter::{Anchor, TimeFault};

/// Nanoseconds in a millisecond, of which a counter of 1 kHz counts one.
const MILLISECOND_NS: u128 = 1_000_000;

/// The host's clock by its anchor. Counts below `end` are known not to be past the range, so no time is worked out for
/// them.
#[derive(Drop)]
pub struct HostClock {
    pub anchor: Anchor,
    end: u64,
    ghost rate: { IsKhz anchor.khz },
    ghost timed: { (h : ℕ) → h < end → time_at anchor h < RANGE_NS },
}

impl HostClock {
    /// The clock of an anchor.
    pub fn new(anchor: Anchor) -> HostClock
        requires { IsKhz anchor.khz }
        ensures { result.anchor ≡ anchor }
    {
        let end = timed_end(&anchor);
        HostClock { anchor, end }
    }

    /// Whether a count has a time, or why it has none.
    #[inline]
    pub fn check(&self, h: u64) -> Result<(), TimeFault>
        ensures time { OnOk result (HasTime self.now.anchor h) }
        ensures fault { IfErr result (λ f. time_fault self.now.anchor h ≡ Some f) }
    {
        if h >= self.anchor.start && h < self.end {
            return Ok(());
        }
        self.check_by_time(h)
    }

    /// The same by the time itself, which takes two divisions.
    #[inline(never)]
    fn check_by_time(&self, h: u64) -> Result<(), TimeFault>
        ensures time { OnOk result (HasTime self.now.anchor h) }
        ensures fault { IfErr result (λ f. time_fault self.now.anchor h ≡ Some f) }
    {
        match self.anchor.time(h) {
            Ok(_ns) => Ok(()),
            Err(fault) => Err(fault),
        }
    }
}

/// A count below which no time is past the range: the last one in range, mostly.
fn timed_end(anchor: &Anchor) -> u64
    requires { IsKhz anchor.now.khz }
    ensures { (h : ℕ) → h < result → time_at anchor.now h < RANGE_NS }
{
    let last = last_count(anchor);
    match anchor.time(last) {
        Ok(_ns) => last,
        Err(_fault) => 0,
    }
}

/// The count at which the range ends, by the rate.
fn last_count(anchor: &Anchor) -> u64 {
    let left_ns = (RANGE_NS - 1).saturating_sub(anchor.base_ns);
    let counts = u128::from(left_ns) * u128::from(anchor.khz) / MILLISECOND_NS;
    anchor
        .start
        .saturating_add(counts.min(u128::from(u64::MAX)) as u64)
}
