//! The fields of a power management timer, and the conditions on them.

ghost use Rattle.std.specs.Prelude.{◌↔◌, IsTrue};
ghost use Rattle.pm_timer.specs.Parts.{IsPmTimer};

/// How many values a count of 24 bits has.
const VALUES_24: u32 = 0x100_0000;

/// All fields of a power management timer.
#[repr(C)]
#[derive(Clone, Copy, Debug, PartialEq, Eq)]
pub struct PmParts {
    /// The bits of the count: 24 or 32, and 0 where there is no timer (own). Then all fields are 0.
    pub bits: u8,
    /// The count, in pulses: below 2^24 or 2^32.
    pub count: u32,
    /// TMR_STS: the count's most significant bit has changed since this was last cleared.
    pub status: bool,
    /// TMR_EN: line 9 is up while TMR_STS is set.
    pub enable: bool,
}

/// Whether the fields are those of a timer.
pub(crate) fn is_valid(p: PmParts) -> bool
    ensures { IsTrue result ↔ IsPmTimer p }
{
    match p.bits {
        0 => p.count == 0 && !p.status && !p.enable,
        24 => p.count < VALUES_24,
        32 => true,
        _ => false,
    }
}
