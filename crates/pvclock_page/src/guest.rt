//! The page as a guest sees it.

ghost use Rattle.std.specs.Prelude.{◌≡◌, ◌^◌, ◌<◌};
ghost use Rattle.pvclock_page.specs.Guest.{guest_bytes, IsGuestPage};

use crate::page::Page;
use byteorder::{ByteOrder, LittleEndian};

/// The 32 bytes of a page as the guest sees them, `struct pvclock_vcpu_time_info` of Linux's
/// `pvclock-abi.h`, little-endian: u32 version, u32 pad, u64 tsc_timestamp, u64 system_time,
/// u32 tsc_to_system_mul, i8 tsc_shift, u8 flags, u8 pad\[2\]. The version is below 2^32.
pub fn page_bytes(page: &Page) -> [u8; 32]
    requires { page.now.version < 2 ^ 32 }
    ensures layout { result ≡ guest_bytes page.now }
    ensures fields { IsGuestPage result page.now }
{
    let Page {
        version,
        tsc_timestamp,
        system_time,
        mul,
        shift,
        flags,
        ..
    } = *page;
    let mut bytes = [0; 32];
    LittleEndian::write_u32(&mut bytes[..], version as u32);
    LittleEndian::write_u64(&mut bytes[8..], tsc_timestamp);
    LittleEndian::write_u64(&mut bytes[16..], system_time);
    LittleEndian::write_u32(&mut bytes[24..], mul);
    bytes[28] = shift.cast_unsigned();
    bytes[29] = flags;
    bytes
}
