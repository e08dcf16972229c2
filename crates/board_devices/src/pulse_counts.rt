//! How many pulses the three devices have in a stretch of nanoseconds.
ghost use Rattle.std.specs.Prelude.{◌≡◌, ◌-◌, ◌+◌, ◌%◌, ◌<◌, ◌≤◌, ◌^◌};
ghost use Rattle.pit_readback.specs.declared.TheConstants.{PIT_HZ};
ghost use Rattle.rtc_registers.specs.declared.TheConstants.{RTC_HZ};
ghost use Rattle.hpet_registers.specs.declared.hpet.TheConstants.{HPET_HZ};
ghost use Rattle.clk_units.specs.Pulses.{pulses_by, pulses_from};
ghost use Rattle.board_devices.specs.private.Pulses.{ArePulses};

use clk_units::pulses_between;
use hpet_registers::HPET_HZ;
use pit_readback::PIT_HZ;
use rtc_registers::RTC_HZ;

/// Nanoseconds in a second.
const SECOND_NS: u64 = 1_000_000_000;

/// What the 8254 pulses in a nanosecond, in units of 2^-64, rounded up. Within a second that is
/// near enough for whole pulses, and they are the upper half of a product.
const PIT_SHARE: u64 = 22_010_322_987_356_911;

/// The same of the crystal of the MC146818.
const RTC_SHARE: u64 = 604_462_909_807_315;

/// Nanoseconds from one pulse of the HPET's main counter to the next.
const HPET_PULSE_NS: u64 = SECOND_NS / HPET_HZ;

/// The pulses of the three devices in a stretch.
#[derive(Clone, Copy)]
pub(crate) struct PulseCounts {
    /// Of the 8254.
    pub(crate) pit: u64,
    /// Of the crystal of the MC146818.
    pub(crate) rtc: u64,
    /// Of the HPET's main counter.
    pub(crate) hpet: u64,
}

/// How many pulses of the three devices fall after nanosecond `from` and up to `to`. Most stretches
/// end in the second that they begin in, and then the seconds before it are left out.
#[inline(always)]
pub(crate) fn pulse_counts(from: u64, to: u64) -> PulseCounts
    requires order { from ≤ to }
    requires range { to < 2 ^ 59 }
    ensures { ArePulses from to result }
{
    let start = from % SECOND_NS;
    let end = start + (to - from);
    if end < SECOND_NS {
        counts_within(from, to, start, end)
    } else {
        counts_across(from, to)
    }
}

/// The same where both lie in one second, `start` and `end` nanoseconds after its beginning.
#[inline(always)]
fn counts_within(from: u64, to: u64, start: u64, end: u64) -> PulseCounts
    requires order { from ≤ to }
    requires range { to < 2 ^ 59 }
    requires start { start ≡ from % 1000000000 }
    requires end { end ≡ start + (to - from) }
    requires one_second { end < 1000000000 }
    ensures { ArePulses from to result }
{
    PulseCounts {
        pit: pit_pulses(end) - pit_pulses(start),
        rtc: rtc_pulses(end) - rtc_pulses(start),
        hpet: hpet_pulses(from, to),
    }
}

/// The same wherever they lie.
#[inline(never)]
fn counts_across(from: u64, to: u64) -> PulseCounts
    requires order { from ≤ to }
    requires range { to < 2 ^ 59 }
    ensures { ArePulses from to result }
{
    PulseCounts {
        pit: pulses_between(from, to, PIT_HZ),
        rtc: pulses_between(from, to, RTC_HZ),
        hpet: hpet_pulses(from, to),
    }
}

/// The pulses of the 8254 in the first `ns` nanoseconds of a second.
#[inline(always)]
#[tactic(auto, using(crate::proofs::Counts::share_of_pit))]
fn pit_pulses(ns: u64) -> u64
    requires { ns < 1000000000 }
    ensures { result ≡ pulses_by PIT_HZ ns }
{
    (u128::from(ns) * u128::from(PIT_SHARE) / 0x1_0000_0000_0000_0000) as u64
}

/// The pulses of the MC146818's crystal in the first `ns` nanoseconds of a second.
#[inline(always)]
#[tactic(auto, using(crate::proofs::Counts::share_of_rtc))]
fn rtc_pulses(ns: u64) -> u64
    requires { ns < 1000000000 }
    ensures { result ≡ pulses_by RTC_HZ ns }
{
    (u128::from(ns) * u128::from(RTC_SHARE) / 0x1_0000_0000_0000_0000) as u64
}

/// How many pulses of the HPET's main counter fall after nanosecond `from` and up to `to`.
#[inline(always)]
#[tactic(auto, using(crate::proofs::Counts::by_tens))]
pub(crate) fn hpet_pulses(from: u64, to: u64) -> u64
    requires order { from ≤ to }
    ensures value { result ≡ pulses_from HPET_HZ from (to - from) }
    ensures few { result ≤ to - from }
{
    to / HPET_PULSE_NS - from / HPET_PULSE_NS
}
