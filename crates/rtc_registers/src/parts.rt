//! The fields of the clock, and the conditions on them.

ghost use Rattle.std.specs.Prelude.{◌≡◌, ◌↔◌, IsNone, ◌&&◌, ◌==◌, not, nat_le};
ghost use Rattle.rtc_registers.specs.Parts.{IsRtc, index_valid, bytes_valid, divider_valid};
ghost use Rattle.rtc_registers.specs.Parts.{cycle_valid, first_fault};

use crate::registers::{self, REGISTER_A, REGISTER_D};
use rtc_cycle::DividerParts;

/// What register D holds: VRT, memory and time are valid (own).
pub(crate) const VALID: u8 = 0x80;

/// All fields of the clock.
#[repr(C)]
#[derive(Clone, Copy, Debug, PartialEq, Eq)]
pub struct RtcParts {
    /// The byte that the data port reads and writes, 0 to 7Fh.
    pub index: u8,
    /// The bytes, as they are stored: register A without UIP, register C without IRQF.
    pub bytes: [u8; 128],
    /// The divider, 0 to 32,767.
    pub d: u16,
    /// Whether an update cycle is in progress.
    pub cycle: bool,
}

/// A field of the clock, in the order in which a saved state keeps them.
#[derive(Clone, Copy, Debug, PartialEq, Eq)]
pub enum RtcField {
    /// The index.
    Index,
    /// The 128 bytes: registers A, C and D have conditions.
    Bytes,
    /// The divider, which DV of register A may hold.
    Divider,
    /// Whether an update cycle is in progress.
    Cycle,
}

/// Whether the index is that of a byte.
pub fn index_valid(r: &RtcParts) -> bool
    ensures { result ≡ index_valid r.now }
{
    r.index <= 0x7f
}

/// Whether registers A, C and D hold what they can.
pub fn bytes_valid(r: &RtcParts) -> bool
    ensures { result ≡ bytes_valid r.now }
{
    r.bytes[REGISTER_A as usize] <= 0x7f
        && (registers::has_only_flags(r) && r.bytes[REGISTER_D as usize] == VALID)
}

/// Whether the divider is where it may be.
pub fn divider_valid(r: &RtcParts) -> bool
    ensures { result ≡ divider_valid r.now }
{
    r.d < 32_768 && (registers::divider_of(r).dv == 2 || r.d == 16_384)
}

/// Whether an update cycle may be in progress, if one is.
pub fn cycle_valid(r: &RtcParts) -> bool
    ensures { result ≡ cycle_valid r.now }
{
    !r.cycle || is_cycle_place(registers::divider_of(r))
}

/// Whether a divider may have an update cycle in progress.
fn is_cycle_place(p: DividerParts) -> bool
    ensures { result ≡ (p.dv == 2 && (not p.set && nat_le p.d 64)) }
{
    p.dv == 2 && (!p.set && p.d <= 64)
}

/// The first field whose condition fails.
pub(crate) fn first_fault(r: &RtcParts) -> Option<RtcField>
    ensures value { result ≡ first_fault r.now }
    ensures valid { IsNone result ↔ IsRtc r.now }
{
    if !index_valid(r) {
        Some(RtcField::Index)
    } else if !bytes_valid(r) {
        Some(RtcField::Bytes)
    } else if !divider_valid(r) {
        Some(RtcField::Divider)
    } else if !cycle_valid(r) {
        Some(RtcField::Cycle)
    } else {
        None
    }
}
