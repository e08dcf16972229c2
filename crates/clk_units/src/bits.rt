//! A bit of a number, by its place.

ghost use Rattle.std.specs.Prelude.{◌≡◌, ◌<◌};
ghost use Rattle.clk_units.specs.Bits.{bit, bit_value};

/// Whether bit `k` of `n` is 1. The lowest is bit 0; the bits from 64 on are 0.
pub fn bit(k: u32, n: u64) -> bool
    ensures { result ≡ bit k n }
{
    k < u64::BITS && (n >> k) % 2 == 1
}

/// The number whose only bit that may be 1 is bit `k`, and it is where `b` holds.
pub fn bit_value(b: bool, k: u32) -> u64
    requires { k < 64 }
    ensures { result ≡ bit_value b k }
{
    if b { 1 << k } else { 0 }
}
