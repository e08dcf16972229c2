//! The page as a guest sees it.
ghost use Rattle.std.specs.Prelude.{◌≡◌, ℕ, ◌^◌, ◌<◌, ◌≤◌};
ghost use Rattle.hv_page.specs.Guest.{guest_sequence, guest_bytes, IsGuestPage};
ghost use Rattle.hv_page.specs.Guest.{guest_time, time_told};
ghost use Rattle.hv_page.specs.Time.{reply};

use crate::page::HvPage;
use byteorder::{ByteOrder, LittleEndian};

/// `TscSequence` in the guest's memory: where the page isn't enabled 0, by which a guest sees that
/// it isn't valid; else the half of the version.
pub fn guest_sequence(page: &HvPage) -> u64
    ensures value { result ≡ guest_sequence page.now }
    ensures valid { 0 < page.now.scale → 2 ≤ page.now.version → 0 < result }
{
    if page.scale == 0 { 0 } else { page.sequence() }
}

/// The first 24 of the 4096 bytes of the page as the guest sees it (TLFS, `HV_REFERENCE_TSC_PAGE`),
/// little-endian: u32 TscSequence, u32 Reserved1, u64 TscScale, i64 TscOffset. All others are 0.
/// The version is below 2^32. A guest that reads a page which was published once by these bytes, as
/// TLFS says, gets the time in `reply`.
pub fn page_bytes(page: &HvPage) -> [u8; 24]
    requires { page.now.version < 2 ^ 32 }
    ensures layout { result ≡ guest_bytes page.now }
    ensures fields { IsGuestPage result page.now }
    ensures reads { (tsc : ℕ) → 2 ≤ page.now.version →
        guest_time result tsc ≡ time_told (reply page.now tsc) }
{
    let HvPage { scale, offset, .. } = *page;
    let mut bytes = [0; 24];
    LittleEndian::write_u32(&mut bytes[..], guest_sequence(page) as u32);
    LittleEndian::write_u64(&mut bytes[8..], scale);
    LittleEndian::write_u64(&mut bytes[16..], offset);
    bytes
}
