//! The ranges of times and of rates that every crate keeps to (the project's own).

ghost use Rattle.std.specs.Prelude.{◌↔◌, IsTrue};
ghost use Rattle.clk_units.specs.Ranges.{IsKhz};

/// Times in range are below this number of nanoseconds, which is 2^59 (about 18 years) (own).
pub const RANGE_NS: u64 = 576_460_752_303_423_488;

/// The slowest counter of a host or a guest, in kHz: 100 MHz (own).
pub const KHZ_MIN: u64 = 100_000;

/// The fastest counter of a host or a guest, in kHz: 10 GHz (own).
pub const KHZ_MAX: u64 = 10_000_000;

/// Whether the rate of a counter, in kHz, is in range: `KHZ_MIN` to `KHZ_MAX`.
pub fn is_khz(khz: u64) -> bool
    ensures { IsTrue result ↔ IsKhz khz }
{
    KHZ_MIN <= khz && khz <= KHZ_MAX
}
