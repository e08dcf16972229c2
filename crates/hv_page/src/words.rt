//! The reference page in the place of a pvclock page, by which a table keeps both alike.
ghost use Rattle.std.specs.Prelude.{◌≡◌};
ghost use Rattle.hv_page.specs.Words.{as_page, of_page};

use crate::page::HvPage;
use pvclock_page::Page;

/// The pvclock page that keeps this page: the scale is kept as the timestamp, the offset as
/// the system time, and the offset of the TSC as itself; multiplier, shift and flags are 0, and it
/// is enabled where the scale isn't 0 (this project's own choice).
pub fn as_page(page: &HvPage) -> Page
    ensures value { result ≡ as_page page.now }
    ensures back { of_page result ≡ page.now }
{
    Page {
        version: page.version,
        tsc_timestamp: page.scale,
        system_time: page.offset,
        mul: 0,
        shift: 0,
        flags: 0,
        offset: page.tsc_offset,
        enabled: page.scale > 0,
    }
}

/// The reference page that a pvclock page keeps.
pub fn of_page(page: &Page) -> HvPage
    ensures { result ≡ of_page page.now }
{
    HvPage {
        version: page.version,
        scale: page.tsc_timestamp,
        offset: page.system_time,
        tsc_offset: page.offset,
    }
}
