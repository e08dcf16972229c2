//! The scale that turns the ticks of a TSC into units of 100 ns.
ghost use Rattle.std.specs.Prelude.{◌≡◌, ◌<◌};
ghost use Rattle.clk_units.specs.Ranges.{IsKhz};
ghost use Rattle.hv_page.specs.Scale.{tsc_scale};

/// The units of 100 ns in a millisecond, and as many 2^-64ths of a unit.
const MILLISECOND: u128 = 10_000 << u64::BITS;

/// `TscScale` of a TSC of `guest_khz` kHz, which is 100,000 to 10,000,000: the units of 100 ns that
/// 2^64 of its ticks take, rounded down.
#[tactic(auto, unfolding(crate::specs::Scale::tsc_scale))]
pub fn scale_of(guest_khz: u64) -> u64
    requires { IsKhz guest_khz }
    ensures value { result ≡ tsc_scale guest_khz }
    ensures some { 0 < result }
{
    (MILLISECOND / u128::from(guest_khz)) as u64
}
