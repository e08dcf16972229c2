//! What an access publishes.
ghost use Rattle.std.specs.Prelude.{◌≡◌, ◌<◌, IsTrue};
ghost use Rattle.board_types.specs.declared.parts.TheConstants.{LAST_VERSION};
ghost use Rattle.board_meters.specs.Published.{
  page_of_msr,
  published_by,
  publishes_wall,
  publishes_hv,
  wall_version_after,
  hv_version_after,
};

use board_types::{
    Access, MSR_HV_REFERENCE_TSC, MSR_KVM_SYSTEM_TIME, MSR_KVM_WALL_CLOCK, MSR_TSC, MSR_TSC_ADJUST,
};

/// The processor whose page an access of processor `cpu` publishes: a refresh that of the page which it names, and a
/// write to the TSC, to its adjustment or to MSR_KVM_SYSTEM_TIME that of `cpu`. None where it publishes no page, as a
/// write to MSR_KVM_WALL_CLOCK, which publishes the words of the wall clock.
pub fn published_by(cpu: u8, a: Access) -> Option<u8>
    ensures { result ≡ published_by cpu a }
{
    match a {
        Access::Refresh { page } => Some(page),
        Access::MsrWrite { msr, .. } => page_of_msr(cpu, msr),
        _ => None,
    }
}

/// The page that a write to an MSR publishes.
fn page_of_msr(cpu: u8, msr: u32) -> Option<u8>
    ensures { result ≡ page_of_msr cpu msr }
{
    if msr == MSR_TSC || msr == MSR_TSC_ADJUST || msr == MSR_KVM_SYSTEM_TIME {
        Some(cpu)
    } else {
        None
    }
}

/// Whether an access publishes the words of the wall clock.
#[inline(always)]
pub fn publishes_wall(a: Access) -> bool
    ensures { result ≡ publishes_wall a }
{
    match a {
        Access::MsrWrite { msr, .. } => msr == MSR_KVM_WALL_CLOCK,
        _ => false,
    }
}

/// Whether an access publishes the reference page of Hyper-V.
#[inline(always)]
pub fn publishes_hv(a: Access) -> bool
    ensures { result ≡ publishes_hv a }
{
    match a {
        Access::MsrWrite { msr, .. } => msr == MSR_HV_REFERENCE_TSC,
        _ => false,
    }
}

/// The version of the wall clock's words after an access.
#[inline(always)]
pub fn wall_version_after(a: Access, version: u32) -> u32
    requires { IsTrue (publishes_wall a) → version < LAST_VERSION }
    ensures { result ≡ wall_version_after a version }
{
    if publishes_wall(a) {
        version + 2
    } else {
        version
    }
}

/// The version of the reference page after an access.
#[inline(always)]
pub(crate) fn hv_version_after(a: Access, version: u32) -> u32
    requires { IsTrue (publishes_hv a) → version < LAST_VERSION }
    ensures { result ≡ hv_version_after a version }
{
    if publishes_hv(a) {
        version + 2
    } else {
        version
    }
}
