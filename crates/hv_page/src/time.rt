//! The time that the page gives.
ghost use Rattle.std.specs.Prelude.{◌≡◌, ℕ, ◌+◌, ◌-◌, ◌%◌, ◌^◌, ◌<◌, ◌≤◌};
ghost use Rattle.clk_units.specs.Ranges.{IsKhz};
ghost use Rattle.hv_page.specs.Scale.{tsc_scale};
ghost use Rattle.hv_page.specs.Time.{units_of, reference_time, reply, IsNear, IsWithinTwo};

use crate::page::{HvPage, HvReply};

/// The time that `page` gives at `tsc`, in units of 100 ns modulo 2^64.
///
/// With the scale of its rate, the units that it adds to the offset are never ahead of the exact
/// time of so many ticks, and behind it by less than two. So what comes between two TSCs is within
/// two units of the exact time between them.
#[tactic(auto, unfolding(crate::specs::Time::reference_time))]
pub fn reading(page: &HvPage, tsc: u64) -> u64
    ensures value { result ≡ reference_time page.now tsc }

    // From one TSC to a later one it goes on by the units in between, so it never falls but where
    // it passes 2^64.
    ensures goes_on { (earlier : ℕ) → earlier ≤ tsc →
        let more = units_of page.now.scale tsc - units_of page.now.scale earlier in
        result ≡ (reference_time page.now earlier + more) % 2 ^ 64 }
    ensures grows { (earlier : ℕ) → earlier ≤ tsc →
        let more = units_of page.now.scale tsc - units_of page.now.scale earlier in
        reference_time page.now earlier + more < 2 ^ 64 → reference_time page.now earlier ≤ result }
    ensures near { (khz : ℕ) → IsKhz khz → page.now.scale ≡ tsc_scale khz →
        IsNear khz tsc (units_of page.now.scale tsc) }
    ensures between { (khz earlier : ℕ) → IsKhz khz → page.now.scale ≡ tsc_scale khz
        → earlier ≤ tsc →
        let more = units_of page.now.scale tsc - units_of page.now.scale earlier in
        IsWithinTwo khz (tsc - earlier) more }
{
    units_of(page.scale, tsc).wrapping_add(page.offset)
}

/// The units of 100 ns that `tsc` ticks take by this scale.
#[tactic(auto, unfolding(crate::specs::Time::units_of))]
pub(crate) fn units_of(scale: u64, tsc: u64) -> u64
    ensures { result ≡ units_of scale tsc }
{
    ((u128::from(tsc) * u128::from(scale)) >> u64::BITS) as u64
}

/// What a read of the page at `tsc` answers: a page of scale 0 isn't enabled.
pub fn reply(page: &HvPage, tsc: u64) -> HvReply
    ensures { result ≡ reply page.now tsc }
{
    if page.scale == 0 {
        HvReply::Off
    } else {
        HvReply::On {
            page: *page,
            reading: reading(page, tsc),
        }
    }
}
