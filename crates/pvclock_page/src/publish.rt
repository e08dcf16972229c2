//! A page that a monitor publishes.

ghost use Rattle.std.specs.Prelude.{◌≡◌, ◌+◌, ◌*◌, ◌^◌, ◌<◌};
ghost use Rattle.clk_units.specs.Ranges.{IsKhz};
ghost use Rattle.pvclock_page.specs.Scale.{IsScale};
ghost use Rattle.pvclock_page.specs.Reading.{reading_of};
ghost use Rattle.pvclock_page.specs.Publish.{published};

use crate::page::Page;
use crate::scale::scale_of;

/// What a page says when it is published.
#[derive(Clone, Copy, Debug, PartialEq, Eq)]
pub struct Publishing {
    /// The rate of the guest's TSC, in kHz: `clk_units::KHZ_MIN` to `clk_units::KHZ_MAX`.
    pub guest_khz: u64,
    /// The TSC of the page's processor now.
    pub tsc: u64,
    /// The time now, in nanoseconds.
    pub system_time: u64,
    /// `TSC_STABLE`, `GUEST_STOPPED` or both.
    pub flags: u8,
    /// The offset of the TSC from the scaled counter of the host.
    pub offset: u64,
    /// Whether the guest has enabled the page.
    pub enabled: bool,
}

/// The page that is published in place of one of this version. At its TSC it reads its own time.
pub fn published(version: u64, news: &Publishing) -> Page
    requires rate { IsKhz news.now.guest_khz }
    requires room { version + 2 < 2 ^ 64 }
    ensures value { result ≡ published version news.now }
    ensures scale { IsScale (news.now.guest_khz * 1000) result.mul result.shift }
    ensures begins { reading_of result news.now.tsc ≡ news.now.system_time }
{
    let (mul, shift) = scale_of(news.guest_khz * 1000);
    Page {
        version: version + 2,
        tsc_timestamp: news.tsc,
        system_time: news.system_time,
        mul,
        shift,
        flags: news.flags,
        offset: news.offset,
        enabled: news.enabled,
    }
}
