//! Meters that are kept without a board.
ghost use Rattle.std.specs.Prelude.{
  ◌≡◌,
  ◌<◌,
  ◌≤◌,
  Some,
  None,
  IfSome,
  IfErr,
  OnOk,
  true,
  IsTrue,
  slice_index_or,
};
ghost use Rattle.clk_units.specs.Ranges.{IsKhz};
ghost use Rattle.clk_units.specs.declared.ranges.TheConstants.{RANGE_NS};
ghost use Rattle.host_counter.specs.Time.{time_fault};
ghost use Rattle.board_types.specs.Legal.{is_legal};
ghost use Rattle.board_types.specs.declared.parts.TheConstants.{LAST_VERSION};
ghost use Rattle.host_counter.specs.Time.{HasTime};
ghost use Rattle.board_meters.specs.Published.{published_by};
ghost use Rattle.board_meters.specs.Meters.{
  IsMetered,
  version_in,
  raised_in,
  refusal_in,
  raised_at,
  counted,
  spent_in,
  or_spent,
  move_fault_in,
  hv_version_moved,
  raised_below,
  moved_in,
};

use crate::meters::{Meters, MoveFault};
use crate::published::{
    hv_version_after, published_by, publishes_hv, publishes_wall, wall_version_after,
};
use crate::refusals::{spent_accesses, spent_page, spent_version};
use board_types::{Access, HV_FORMAT, Refusal};
use clk_units::RANGE_NS;
use host_counter::{Anchor, TimeFault};
use std::marker::Model;

/// The meters of a board that isn't there: they refuse what the board would, and count what the board would, in a few
/// dozen instructions.
#[derive(Clone, Copy)]
pub struct Tally {
    meters: Meters,
}

impl Model for Tally {
    ghost use Rattle.board_meters.specs.declared.meters.Meters.{Meters};
    ghost use Rattle.board_meters.specs.Meters.{IsMetered};

    ghost Value = { Meters };

    ghost view = { λ t. t.meters };

    ghost invariant = { λ t. IsMetered t.meters };

    ghost inverse = { λ m. record { meters = m } };
}

impl Tally {
    /// These meters, which are those of some board.
    pub fn of_meters(meters: Meters) -> Tally
        requires { IsMetered meters }
        ensures { result ≡ meters }
    {
        Tally { meters }
    }

    /// How many processors there are.
    pub fn cpus(&self) -> u8
        ensures { result ≡ self.now.cpus }
    {
        self.meters.cpus
    }

    /// The format.
    pub fn format(&self) -> u8
        ensures { result ≡ self.now.format }
    {
        self.meters.format
    }

    /// Whether a count of the host's counter has a time, or why it has none. Next to no count asks for a division.
    #[inline(always)]
    pub fn check_count(&self, h: u64) -> Result<(), TimeFault>
        ensures time { OnOk result (HasTime self.now.anchor h) }
        ensures fault { IfErr result (λ f. time_fault self.now.anchor h ≡ Some f) }
    {
        if is_timed(&self.meters.anchor, h) {
            return Ok(());
        }
        match self.meters.anchor.time(h) {
            Ok(_ns) => Ok(()),
            Err(fault) => Err(fault),
        }
    }

    // Inlined, so that a caller who asks for no cause makes none.
    /// Whether an access by processor `cpu` at count `h` is taken, or why it is refused.
    #[tactic(auto, unfolding(crate::specs::Meters::refusal_in))]
    #[inline(always)]
    pub fn admit(&self, cpu: u8, h: u64, a: Access) -> Result<(), Refusal>
        requires cpu { cpu < self.now.cpus }
        requires legal { IsTrue (is_legal self.now.cpus self.now.format a) }
        ensures refused { IfErr result (λ f. refusal_in self.now cpu h a ≡ Some f) }
        ensures taken { OnOk result (refusal_in self.now cpu h a ≡ None) }
    {
        if let Err(fault) = self.check_count(h) {
            return Err(Refusal::NoTime(fault));
        }
        let version = self.raised(cpu, a);
        match spent_version(version, spent_accesses(self.meters.accesses)) {
            Some(refusal) => Err(refusal),
            None => Ok(()),
        }
    }

    /// The version that an access would raise.
    #[inline(always)]
    fn raised(&self, cpu: u8, a: Access) -> Option<u32>
        requires cpu { cpu < self.now.cpus }
        requires legal { IsTrue (is_legal self.now.cpus self.now.format a) }
        ensures { result ≡ raised_in self.now cpu a }
    {
        if publishes_wall(a) {
            Some(self.meters.wall_version)
        } else if publishes_hv(a) {
            Some(self.meters.hv_version)
        } else {
            version_at(published_by(cpu, a), &self.meters.versions)
        }
    }

    /// Counts an access that isn't refused.
    #[inline(always)]
    pub fn count(&mut self, cpu: u8, h: u64, a: Access)
        requires cpu { cpu < self.old.cpus }
        requires legal { IsTrue (is_legal self.old.cpus self.old.format a) }
        requires free { refusal_in self.old cpu h a ≡ None }
        ensures { self.new ≡ counted cpu h a self.old }
    {
        let meters = &mut self.meters;
        meters.host = meters.host.max(h);
        meters.accesses += 1;
        meters.wall_version = wall_version_after(a, meters.wall_version);
        meters.hv_version = hv_version_after(a, meters.hv_version);
        raise_page(&mut meters.versions, published_by(cpu, a));
    }

    /// Whether a move over a gap of nanoseconds is taken, or why it is refused.
    #[tactic(auto, unfolding(crate::specs::Meters::move_fault_in))]
    pub fn admit_move(&self, gap: u64) -> Result<(), MoveFault>
        ensures refused { IfErr result (λ f. move_fault_in gap self.now ≡ Some f) }
        ensures taken { OnOk result (move_fault_in gap self.now ≡ None) }
    {
        let ns = u128::from(self.meters.anchor.time_of(self.meters.host)) + u128::from(gap);
        if ns >= u128::from(RANGE_NS) {
            return Err(MoveFault::OutOfRange { ns });
        }
        match self.spent_pages() {
            Some(fault) => Err(fault),
            None => Ok(()),
        }
    }

    /// The first page whose version is the last one; the reference page comes after those of the processors.
    fn spent_pages(&self) -> Option<MoveFault>
        ensures { result
            ≡ or_spent (spent_in self.now.versions self.now.cpus) self.now.cpus self.now.hv_version }
    {
        match spent_below(&self.meters.versions, self.meters.cpus) {
            Some(fault) => Some(fault),
            None => spent_page(self.meters.cpus, self.meters.hv_version),
        }
    }

    /// Counts a move that isn't refused, to a host whose counter runs at `khz` and is at `start` when the gap is over.
    pub fn count_move(&mut self, khz: u64, start: u64, gap: u64)
        requires rate { IsKhz khz }
        requires free { move_fault_in gap self.old ≡ None }
        ensures { self.new ≡ moved_in khz start gap self.old }
    {
        let meters = &mut self.meters;
        let base_ns = meters.anchor.time_of(meters.host) + gap;
        raise_all(&mut meters.versions, meters.cpus);
        meters.hv_version = hv_version_moved(meters.format, meters.hv_version);
        meters.host = start;
        meters.anchor = Anchor {
            khz,
            start,
            base_ns,
        };
    }
}

/// Whether products alone show that a count has a time, as they do but in the last nanosecond of the range.
#[inline(always)]
#[tactic(auto, using(crate::proofs::Times::product_time))]
fn is_timed(anchor: &Anchor, h: u64) -> bool
    ensures { result ≡ true → HasTime anchor.now h }
{
    anchor.start <= h
        && anchor.base_ns < RANGE_NS
        && u128::from(h - anchor.start) * 1_000_000
            <= u128::from(anchor.khz) * u128::from(RANGE_NS - 1 - anchor.base_ns)
}

/// The version of the reference page after a move, which publishes it where the format has one.
fn hv_version_moved(format: u8, version: u32) -> u32
    requires { version < LAST_VERSION }
    ensures { result ≡ hv_version_moved format version }
{
    if format >= HV_FORMAT {
        version + 2
    } else {
        version
    }
}

/// Raises the version of a page, if there is one.
#[inline(always)]
fn raise_page(versions: &mut [u32; 64], page: Option<u8>)
    requires { IfSome page (λ k. (k < 64) × (slice_index_or versions.old k 0 < LAST_VERSION)) }
    ensures { versions.new ≡ raised_at page versions.old }
{
    if let Some(page) = page {
        versions[page as usize] += 2;
    }
}

/// The version of a page.
#[inline(always)]
fn version_at(page: Option<u8>, versions: &[u32; 64]) -> Option<u32>
    requires { IfSome page (λ k. k < 64) }
    ensures { result ≡ version_in page versions.now }
{
    match page {
        Some(page) => Some(versions[page as usize]),
        None => None,
    }
}

/// The first processor whose page has the last version.
fn spent_below(versions: &[u32; 64], cpus: u8) -> Option<MoveFault>
    requires { cpus ≤ 64 }
    ensures { result ≡ spent_in versions.now cpus }
{
    for cpu in 0..cpus {
        let version = versions[cpu as usize];
        if let Some(fault) = spent_page(cpu, version) {
            return Some(fault);
        }
    }
    None
}

/// Raises the versions of the pages of all processors.
fn raise_all(versions: &mut [u32; 64], cpus: u8)
    requires cpus { cpus ≤ 64 }
    requires free { spent_in versions.old cpus ≡ None }
    ensures { versions.new ≡ raised_below cpus versions.old }
{
    for cpu in 0..cpus {
        versions[cpu as usize] += 2;
    }
}
