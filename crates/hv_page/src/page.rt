//! The reference page, and how it is published.
ghost use Rattle.std.specs.Prelude.{◌≡◌, ◌+◌, ◌/◌, ◌^◌, ◌<◌};
ghost use Rattle.clk_units.specs.Ranges.{IsKhz};
ghost use Rattle.hv_page.specs.Page.{tsc_sequence, published, withdrawn};
ghost use Rattle.hv_page.specs.Time.{reference_time};

use crate::scale::scale_of;
use crate::time::units_of;

/// Nanoseconds in a unit of reference time.
const UNIT_NS: u64 = 100;

/// The reference TSC page (TLFS, `HV_REFERENCE_TSC_PAGE`).
#[derive(Clone, Copy, Debug, Default, PartialEq, Eq)]
#[repr(C)]
pub struct HvPage {
    /// Goes up by 2 at each publishing, and is odd while the page is being written. No guest sees
    /// it: a guest sees the half of it.
    pub version: u64,
    /// `TscScale`: units of 100 ns for 2^64 ticks of the TSC; 0 where the page isn't enabled.
    pub scale: u64,
    /// `TscOffset`: what is added to the scaled TSC, in units of 100 ns modulo 2^64.
    pub offset: u64,
    /// The offset of the TSC from the scaled counter of the host, with which the page was
    /// published. No guest sees it.
    pub tsc_offset: u64,
}

impl HvPage {
    ghost use Rattle.hv_page.specs.Page.{tsc_sequence};

    /// `TscSequence`, as a guest sees it.
    pub fn sequence(&self) -> u64
        ensures { result ≡ tsc_sequence self.now }
    {
        self.version / 2
    }
}

/// What a read of the page answers.
#[derive(Clone, Copy, Debug, PartialEq, Eq)]
pub enum HvReply {
    /// The page isn't enabled.
    Off,
    /// The page, and the time that it gives in units of 100 ns.
    On { page: HvPage, reading: u64 },
}

/// The page as it is published, enabled, by a processor whose TSC of `guest_khz` kHz reads `tsc` at
/// `now` nanoseconds, with this offset of the TSC.
pub fn published(page: &HvPage, guest_khz: u64, tsc_offset: u64, tsc: u64, now: u64) -> HvPage
    requires rate { IsKhz guest_khz }
    requires version { page.now.version + 2 < 2 ^ 64 }
    ensures value { result ≡ published page.now guest_khz tsc_offset tsc now }
    ensures reads { reference_time result tsc ≡ now / 100 }
{
    let scale = scale_of(guest_khz);
    HvPage {
        version: page.version + 2,
        scale,
        offset: (now / UNIT_NS).wrapping_sub(units_of(scale, tsc)),
        tsc_offset,
    }
}

/// The page as it is published where it isn't enabled.
pub fn withdrawn(page: &HvPage) -> HvPage
    requires { page.now.version + 2 < 2 ^ 64 }
    ensures { result ≡ withdrawn page.now }
{
    HvPage {
        version: page.version + 2,
        ..HvPage::default()
    }
}
