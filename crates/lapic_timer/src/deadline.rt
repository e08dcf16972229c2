//! When a deadline of the TSC is reached.

ghost use Rattle.std.specs.Prelude.{◌≡◌, ◌+◌, ◌*◌, ◌/◌, ◌^◌, ◌<◌, ◌≤◌};
ghost use Rattle.clk_units.specs.Ranges.{IsKhz};
ghost use Rattle.tsc_scale.specs.Ratio.{ratio_of};
ghost use Rattle.lapic_timer.specs.Deadline.{is_reached, guest_count_at, is_reached_at, IsFirstAt};
ghost use Rattle.lapic_timer.specs.private.Wait.{scaled_at, wait_of, count_for, time_for};

use clk_units::RANGE_NS;
use host_counter::Anchor;
use tsc_scale::{Tsc, ratio};

/// Nanoseconds in a millisecond, of which a counter of 1 kHz counts one.
const NS_IN_MS: u64 = 1_000_000;

/// How many bits a ratio has after its binary point.
const FRACTION_BITS: u32 = 48;

/// Half of the TSC's numbers: what lies less than this past a deadline has reached it.
const HALF: u64 = 0x8000_0000_0000_0000;

/// How many numbers a TSC has.
const MODULUS: u128 = 0x1_0000_0000_0000_0000;

/// Whether a deadline is armed, and reached by the TSC `tsc`.
pub(crate) fn is_reached(deadline: u64, tsc: u64) -> bool
    ensures { result ≡ is_reached deadline tsc }
{
    deadline != 0 && tsc.wrapping_sub(deadline) < HALF
}

/// The counts of a host's counter in `ns` nanoseconds, rounded up. Whole milliseconds have whole counts, so nothing
/// here needs 128 bits.
#[inline]
fn counts_in(ns: u64, khz: u64) -> u64
    requires in_range { ns < 2 ^ 59 }
    requires rate { khz ≤ 10000000 }
    ensures { result ≡ (ns * khz + 999999) / 1000000 }
{
    let rest = ns % NS_IN_MS * khz;
    ns / NS_IN_MS * khz + (rest + (NS_IN_MS - 1)) / NS_IN_MS
}

/// The counts of the guest at nanosecond `t`, before offset and modulus.
#[tactic(auto, unfolding(crate::specs::Deadline::count_at, crate::specs::private::Wait::scaled_at))]
fn scaled_at(anchor: &Anchor, ratio: u64, t: u64) -> u128
    requires later { anchor.now.base_ns ≤ t }
    requires in_range { t < 2 ^ 59 }
    requires rate { anchor.now.khz ≤ 10000000 }
    requires ratio { ratio ≤ 2 ^ 55 }
    ensures value { result ≡ scaled_at anchor.now ratio t }
    ensures small { result < 2 ^ 73 }
{
    let count = u128::from(anchor.start) + u128::from(counts_in(t - anchor.base_ns, anchor.khz));
    (count * u128::from(ratio)) >> FRACTION_BITS
}

/// How many counts of the guest come before the deadline, where `scaled` have passed.
#[tactic(auto, unfolding(crate::specs::private::Wait::wait_of))]
fn wait_of(offset: u64, deadline: u64, scaled: u128) -> u64
    ensures { result ≡ wait_of offset deadline scaled }
{
    let past = ((scaled % MODULUS) as u64)
        .wrapping_add(offset)
        .wrapping_sub(deadline);
    if past < HALF { 0 } else { u64::MAX - past + 1 }
}

/// The least nanosecond at which `scaled` counts of the guest have passed, of which fewer have passed at
/// the anchor.
#[tactic(auto, unfolding(crate::specs::private::Wait::count_for, crate::specs::private::Wait::time_for))]
fn time_of_scaled(anchor: &Anchor, ratio: u64, scaled: u128) -> u128
    requires rate { 0 < anchor.now.khz }
    requires ratio { 2 ^ 41 ≤ ratio }
    requires small { scaled < 2 ^ 74 }
    requires later { anchor.now.start < count_for ratio scaled }
    ensures { result ≡ time_for anchor.now (count_for ratio scaled) }
{
    let ratio = u128::from(ratio);
    let count = ((scaled << FRACTION_BITS) + ratio - 1) / ratio;
    let counts = count - u128::from(anchor.start) - 1;
    u128::from(anchor.base_ns) + (counts * u128::from(NS_IN_MS) / u128::from(anchor.khz) + 1)
}

/// The first nanosecond after `from` and up to `to` at which a deadline is reached by the TSC `tsc` of a
/// guest whose rate is `guest_khz`, on the host's counter of `anchor`; none where the deadline is 0. The
/// TSC at a nanosecond is that at the first count whose time isn't before it.
pub fn first_reach(
    anchor: Anchor,
    guest_khz: u64,
    tsc: Tsc,
    deadline: u64,
    from: u64,
    to: u64,
) -> Option<u64>
    requires host { IsKhz anchor.khz }
    requires guest { IsKhz guest_khz }
    requires later { anchor.base_ns ≤ from }
    requires in_range { to < RANGE_NS }
    ensures { IsFirstAt
        (is_reached_at anchor (ratio_of guest_khz anchor.khz) tsc deadline) from to result }
{
    if deadline == 0 || to <= from {
        return None;
    }
    let ratio = ratio(guest_khz, anchor.khz);
    let scaled = scaled_at(&anchor, ratio, from + 1);
    let wait = wait_of(tsc.offset, deadline, scaled);
    if wait == 0 {
        return Some(from + 1);
    }
    let first = time_of_scaled(&anchor, ratio, scaled + u128::from(wait));
    if first <= u128::from(to) {
        Some(first as u64)
    } else {
        None
    }
}

/// The TSC at nanosecond `at` of a processor whose offset is 0. That of another processor is its offset
/// away, modulo 2^64.
#[tactic(auto, unfolding(crate::specs::private::Wait::scaled_at, tsc_scale::specs::Offset::tsc_by))]
pub fn guest_count_at(anchor: Anchor, guest_khz: u64, at: u64) -> u64
    requires host { IsKhz anchor.khz }
    requires guest { IsKhz guest_khz }
    requires anchored { anchor.base_ns ≤ at }
    requires in_range { at < RANGE_NS }
    ensures { result ≡ guest_count_at anchor (ratio_of guest_khz anchor.khz) at }
{
    let ratio = ratio(guest_khz, anchor.khz);
    (scaled_at(&anchor, ratio, at) % MODULUS) as u64
}
