//! A guest's time stamp counter (TSC), out of the host's counter.
//!
//! The guest's TSC is the host's counter times a ratio, which is a fixed-point number of 48 bits after the
//! binary point, plus an offset: the form that VMX gives it ("TSC multiplier" and "TSC offset" of Intel's Software
//! Developer's Manual, volume 3; Linux's document on KVM timekeeping, "TSC virtualization - VMX"). A guest
//! sets its TSC by one of two registers, MSR 10h, the TSC itself, and MSR 3Bh, TSC_ADJUST. A write to
//! either moves the other by the same amount (the manual's "Time-Stamp Counter Adjustment").
//!
//! ```text
//! let ratio = ratio(2_000_000, 1_000_000);      // a guest of 2 GHz on a host of 1 GHz
//! let mut tsc = Tsc { offset: 0, adjust: 0 };
//! tsc.read(1_000, ratio) == 2_000
//! tsc.write_tsc(1_000, ratio, 5_000);
//! tsc.read(1_000, ratio) == 5_000
//! tsc.adjust == 3_000
//! ```
#![tactic(auto)]

ghost use Rattle.std.specs.Prelude.{◌≡◌, ◌*◌, ◌/◌, ◌%◌, ◌^◌};
ghost use Rattle.clk_units.specs.Ranges.{IsKhz};
ghost use Rattle.tsc_scale.specs.Ratio.{ratio_of};
ghost use Rattle.tsc_scale.specs.Offset.{tsc_by};

/// How many bits a ratio has after its binary point.
const FRACTION_BITS: u32 = 48;

/// The ratio of a guest's rate to its host's, rounded down, with 48 bits after the binary point. Each rate is
/// `clk_units::KHZ_MIN` to `clk_units::KHZ_MAX`, in kHz.
// A host that counts nanoseconds has guests of whole GHz, whose ratio asks for no division of 128 bits.
#[tactic(auto, using(crate::proofs::Ratios::ratio_whole))]
pub fn ratio(guest_khz: u64, host_khz: u64) -> u64
    requires guest { IsKhz guest_khz }
    requires host { IsKhz host_khz }
    ensures { result ≡ ratio_of guest_khz host_khz }
{
    if guest_khz % host_khz == 0 {
        return (guest_khz / host_khz) << FRACTION_BITS;
    }
    ((u128::from(guest_khz) << FRACTION_BITS) / u128::from(host_khz)) as u64
}

/// The two numbers that fix the TSC of one processor of a guest.
#[derive(Clone, Copy, Debug, PartialEq, Eq)]
#[repr(C)]
pub struct Tsc {
    /// What is added to the scaled counter, modulo 2^64.
    pub offset: u64,
    /// The register TSC_ADJUST: by how much the guest has moved its TSC, modulo 2^64.
    pub adjust: u64,
}

impl Tsc {
    ghost use Rattle.tsc_scale.specs.Tsc.{tsc_at, moved_by, difference};

    /// The TSC at count `h` of the host's counter, modulo 2^64.
    pub fn read(&self, h: u64, ratio: u64) -> u64
        ensures { result ≡ tsc_at self.now h ratio }
    {
        tsc_by(self.offset, h, ratio)
    }

    /// Sets the TSC to `v` at count `h` of the host's counter; TSC_ADJUST moves with it.
    #[tactic(auto, unfolding(crate::specs::Offset::tsc_by))]
    pub fn write_tsc(&mut self, h: u64, ratio: u64, v: u64)
        ensures moved { self.new ≡ moved_by (difference v (tsc_at self.old h ratio)) self.old }
        ensures written { tsc_at self.new h ratio ≡ v }
    {
        let distance = v.wrapping_sub(self.read(h, ratio));
        self.move_by(distance);
    }

    /// Sets TSC_ADJUST to `v`; the TSC moves with it.
    pub fn write_adjust(&mut self, v: u64)
        ensures moved { self.new ≡ moved_by (difference v self.old.adjust) self.old }
        ensures written { self.new.adjust ≡ v }
    {
        let distance = v.wrapping_sub(self.adjust);
        self.move_by(distance);
    }

    /// Moves the TSC and TSC_ADJUST on by `distance`.
    fn move_by(&mut self, distance: u64)
        ensures { self.new ≡ moved_by distance self.old }
    {
        self.offset = self.offset.wrapping_add(distance);
        self.adjust = self.adjust.wrapping_add(distance);
    }
}

/// The TSC that an offset alone gives at count `h` of the host's counter, modulo 2^64. A page of kvmclock is read
/// by the offset with which it was published.
#[tactic(auto, unfolding(crate::specs::Offset::tsc_by))]
pub fn tsc_by(offset: u64, h: u64, ratio: u64) -> u64
    ensures { result ≡ tsc_by offset h ratio }
{
    scaled(h, ratio).wrapping_add(offset)
}

/// The host's counter in counts of the guest, modulo 2^64.
fn scaled(h: u64, ratio: u64) -> u64
    ensures { result ≡ h * ratio / 2 ^ 48 % 2 ^ 64 }
{
    let counts = (u128::from(h) * u128::from(ratio)) >> FRACTION_BITS;
    (counts % (1 << u64::BITS)) as u64
}
