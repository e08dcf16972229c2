//! Why an access is refused.
ghost use Rattle.std.specs.Prelude.{
  ◌≡◌,
  ◌<◌,
  ◌≤◌,
  IfSome,
  IfOk,
  IfErr,
  OnOk,
  None,
  Some,
  IsTrue,
  map,
};
ghost use Rattle.clk_units.specs.Ranges.{IsKhz};
ghost use Rattle.clk_units.specs.declared.ranges.TheConstants.{RANGE_NS};
ghost use Rattle.host_counter.specs.Time.{time_fault, time_at};
ghost use Rattle.board_types.specs.Legal.{is_legal};
ghost use Rattle.board_core.specs.Time.{time_of_access};
ghost use Rattle.host_counter.specs.Time.{HasTime};
ghost use Rattle.board_core.specs.Refusals.{meters_of, refusal_of};
ghost use Rattle.board_meters.specs.Meters.{version_in, raised_in};
ghost use Rattle.board_meters.specs.Meters.{spent_version, spent_accesses};

use crate::acts::writes;
use crate::board::BoardState;
use board_meters::{published_by, publishes_hv, publishes_wall, spent_accesses, spent_version};
use board_types::{Access, ProcessorParts, Refusal};
use clk_units::RANGE_NS;
use host_counter::{Anchor, TimeFault};

/// The rate, in kHz, of a counter of nanoseconds.
const NANOSECONDS_KHZ: u64 = 1_000_000;

impl BoardState {
    /// The time to which an access at count `h` runs, or why it is refused.
    #[tactic(auto, unfolding(board_meters::specs::Meters::refusal_in, crate::specs::Refusals::meters_of))]
    #[inline(always)]
    pub(crate) fn admit(&self, cpu: u8, h: u64, a: Access) -> Result<u64, Refusal>
        requires cpu { cpu < self.now.cpus }
        requires legal { IsTrue (is_legal self.now.cpus self.now.format a) }
        ensures refused { IfErr result (λ e. refusal_of self.now cpu h a ≡ Some e) }
        ensures taken { OnOk result (refusal_of self.now cpu h a ≡ None) }
        ensures time { IfOk result (λ to. to ≡ time_of_access self.now h) }
    {
        let to = match self.time_to(h) {
            Err(fault) => return Err(Refusal::NoTime(fault)),
            Ok(to) => to,
        };
        let version = self.raised(cpu, a);
        match spent_version(version, spent_accesses(self.accesses)) {
            Some(refusal) => Err(refusal),
            None => Ok(to),
        }
    }

    /// The version that an access would raise. Most accesses publish nothing, which is seen at once.
    #[tactic(auto, using(crate::proofs::Kept::raised_none), unfolding(crate::specs::Refusals::meters_of))]
    #[inline(always)]
    fn raised(&self, cpu: u8, a: Access) -> Option<u32>
        requires cpu { cpu < self.now.cpus }
        requires legal { IsTrue (is_legal self.now.cpus self.now.format a) }
        ensures { result ≡ raised_in (meters_of self.now) cpu a }
    {
        if !writes(a) {
            return None;
        }
        if publishes_wall(a) {
            Some(self.wall_version)
        } else if publishes_hv(a) {
            Some(self.hv.version)
        } else {
            version_at(published_by(cpu, a), &self.processors)
        }
    }

    /// The greater of the board's time and of that at count `h`. A count that isn't beyond the board's asks for no
    /// division.
    #[inline(always)]
    pub(crate) fn time_to(&self, h: u64) -> Result<u64, TimeFault>
        ensures ok { OnOk result (HasTime self.now.anchor h) }
        ensures time { IfOk result (λ to. to ≡ time_of_access self.now h) }
        ensures fault { IfErr result (λ f. time_fault self.now.anchor h ≡ Some f) }
    {
        if self.anchor.start <= h && h <= self.host {
            return Ok(self.time_ns);
        }
        match time_anew(self.anchor, h) {
            Ok(ns) => Ok(ns.max(self.time_ns)),
            Err(fault) => Err(fault),
        }
    }
}

/// The time at a count of the host's counter.
#[inline(always)]
pub(crate) fn time_anew(anchor: Anchor, h: u64) -> Result<u64, TimeFault>
    requires { IsKhz anchor.khz }
    ensures ok { OnOk result (HasTime anchor h) }
    ensures time { IfOk result (λ ns. ns ≡ time_at anchor h) }
    ensures fault { IfErr result (λ f. time_fault anchor h ≡ Some f) }
{
    match nanoseconds(anchor, h) {
        Some(ns) => Ok(ns),
        None => anchor.time(h),
    }
}

/// The time at a count that is one of nanoseconds, where it is in range. A monitor's own clock counts
/// so, and needs no division.
#[inline(always)]
#[tactic(auto, using(crate::proofs::Times::time_at_counts))]
fn nanoseconds(anchor: Anchor, h: u64) -> Option<u64>
    ensures started { IfSome result (λ ns. anchor.start ≤ h) }
    ensures range { IfSome result (λ ns. ns < RANGE_NS) }
    ensures time { IfSome result (λ ns. ns ≡ time_at anchor h) }
{
    if anchor.khz != NANOSECONDS_KHZ || (h < anchor.start || anchor.base_ns >= RANGE_NS) {
        return None;
    }
    let counts = h - anchor.start;
    if counts < RANGE_NS - anchor.base_ns {
        Some(anchor.base_ns + counts)
    } else {
        None
    }
}

/// The time at a count that has one.
#[inline(always)]
#[tactic(auto, using(crate::proofs::Times::time_at_counts))]
pub(crate) fn known_time(anchor: Anchor, h: u64) -> u64
    requires rate { IsKhz anchor.khz }
    requires time { HasTime anchor h }
    ensures { result ≡ time_at anchor h }
{
    if anchor.khz == NANOSECONDS_KHZ {
        return anchor.base_ns + (h - anchor.start);
    }
    anchor.time_of(h)
}

/// The version of a page.
#[tactic(auto, using(crate::proofs::Metered::version_of))]
fn version_at(page: Option<u8>, processors: &[ProcessorParts; 64]) -> Option<u32>
    requires { IfSome page (λ k. k < 64) }
    ensures { result ≡ version_in page (map (λ p. p.version) processors.now) }
{
    match page {
        Some(page) => Some(processors[page as usize].version),
        None => None,
    }
}
