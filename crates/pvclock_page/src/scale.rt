//! The scale that turns the ticks of a TSC into nanoseconds.

ghost use Rattle.std.specs.Prelude.{◌≡◌, ℕ, ℤ, ◌≤◌};
ghost use Rattle.pvclock_page.specs.Scale.{IsScale, mul_for, shift_for};

/// Nanoseconds in a second.
const SECOND_NS: u128 = 1_000_000_000;

/// How many bits a multiplier has after its binary point.
pub(crate) const FRACTION_BITS: u32 = 32;

/// The shift to the right that the fastest TSC of the range wants.
const MOST_RIGHT: i8 = 3;

/// The scale of a TSC of `hz` ticks a second, which is 10^8 to 10^10: the multiplier and the shift. It is
/// the one pair whose multiplier, rounded down, has its highest bit set, as KVM takes it.
pub fn scale_of(hz: u64) -> (u32, i8)
    requires slow { 100000000 ≤ hz }
    requires fast { hz ≤ 10000000000 }
    ensures mul { result.0 ≡ mul_for hz }
    ensures shift { result.1 ≡ shift_for hz }

    // It is a scale of this rate, and there is no other.
    ensures scale { IsScale hz result.0 result.1 }
    ensures only { (mul : ℕ) (shift : ℤ) → IsScale hz mul shift →
        (mul ≡ result.0) × (shift ≡ result.1) }
{
    let widest = ((SECOND_NS << (FRACTION_BITS + MOST_RIGHT as u32)) / u128::from(hz)) as u64;
    let surplus_bits = u32::BITS - widest.leading_zeros();
    (
        (widest >> surplus_bits) as u32,
        surplus_bits as i8 - MOST_RIGHT,
    )
}
