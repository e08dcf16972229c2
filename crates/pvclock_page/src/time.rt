//! The time that a page gives.

ghost use Rattle.std.specs.Prelude.{◌≡◌, ℕ, ◌-◌, ◌*◌, ◌/◌, ◌%◌, ◌^◌, ◌<◌, ◌≤◌};
ghost use Rattle.pvclock_page.specs.Reading.{delta_of, elapsed_of, whole_reading, reading_of};
ghost use Rattle.pvclock_page.specs.Reading.{ticks_since, IsNear};
ghost use Rattle.pvclock_page.specs.Scale.{IsScale};

use crate::page::Page;
use crate::scale::FRACTION_BITS;

/// TSCs so far ahead of a page's timestamp, or further, are before it.
const BEHIND: u64 = 1 << 63;

/// The time that `page` gives at `tsc` in nanoseconds, modulo 2^64. A TSC before the page's timestamp
/// reads as the timestamp does (own).
///
/// With the scale of its rate a page is never ahead of the exact time, and behind it by less than one
/// nanosecond (2 - 2^-k where the scale shifts to the right by k) and a 2^31th of the time since the
/// timestamp.
#[tactic(auto, unfolding(crate::specs::Reading::reading_of))]
pub fn reading(page: &Page, tsc: u64) -> u64
    ensures value { result ≡ reading_of page.now tsc }

    // At the timestamp, and before it, the page gives its own time; then its time grows with the TSC, and
    // keeps near the exact one.
    ensures begins { delta_of page.now tsc ≡ 0 → result ≡ page.now.system_time }
    ensures grows { (earlier : ℕ) → delta_of page.now earlier ≤ delta_of page.now tsc →
        whole_reading page.now tsc < 2 ^ 64 → reading_of page.now earlier ≤ result }
    ensures near { (hz : ℕ) → IsScale hz page.now.mul page.now.shift →
        whole_reading page.now tsc < 2 ^ 64 →
        IsNear hz (delta_of page.now tsc) page.now.shift (result - page.now.system_time) }
{
    let delta = ticks_between(page.tsc_timestamp, tsc);
    elapsed(delta, page.mul, page.shift).wrapping_add(page.system_time)
}

/// The ticks from `timestamp` to `tsc`, 0 where the TSC is before it.
fn ticks_between(timestamp: u64, tsc: u64) -> u64
    ensures { result ≡ ticks_since timestamp tsc }
{
    let ahead = tsc.wrapping_sub(timestamp);
    if ahead < BEHIND { ahead } else { 0 }
}

/// The nanoseconds of `delta` ticks, modulo 2^64.
fn elapsed(delta: u64, mul: u32, shift: i8) -> u64
    ensures { result ≡ elapsed_of delta mul shift % 2 ^ 64 }
{
    if shift < 0 {
        elapsed_right(delta, mul, u32::from(shift.unsigned_abs()))
    } else {
        elapsed_left(delta, mul, shift as u32)
    }
}

/// The nanoseconds of `delta` ticks that are shifted to the left, modulo 2^64.
fn elapsed_left(delta: u64, mul: u32, shift: u32) -> u64
    requires { shift < 128 }
    ensures { result ≡ delta * 2 ^ shift * mul / 2 ^ 32 % 2 ^ 64 }
{
    let product = u128::from(delta) * u128::from(mul);
    if shift < FRACTION_BITS {
        low_word(product >> (FRACTION_BITS - shift))
    } else {
        low_word(product << (shift - FRACTION_BITS))
    }
}

/// The nanoseconds of `delta` ticks that are shifted to the right.
fn elapsed_right(delta: u64, mul: u32, shift: u32) -> u64
    ensures { result ≡ delta / 2 ^ shift * mul / 2 ^ 32 % 2 ^ 64 }
{
    let ticks = delta.checked_shr(shift).unwrap_or(0);
    low_word((u128::from(ticks) * u128::from(mul)) >> FRACTION_BITS)
}

/// A number modulo 2^64.
fn low_word(number: u128) -> u64
    ensures { result ≡ number % 2 ^ 64 }
{
    (number % (1 << u64::BITS)) as u64
}
