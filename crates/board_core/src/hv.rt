//! The reference page of Hyper-V.
ghost use Rattle.std.specs.Prelude.{◌≡◌, ◌<◌, ◌≤◌, ◌↔◌, OnOk, IfOk, IfErr, IsTrue};
ghost use Rattle.clk_units.specs.Ranges.{IsKhz};
ghost use Rattle.host_counter.specs.Time.{time_fault};
ghost use Rattle.board_types.specs.declared.parts.TheConstants.{LAST_VERSION};
ghost use Rattle.host_counter.specs.Time.{HasTime};
ghost use Rattle.board_core.specs.Conditions.{AreRates, IsVersion, IsHv};
ghost use Rattle.board_core.specs.Hv.{hv_in, with_page, hv_published, hv_after, hv_published_at_host, hv_reply};
ghost use Rattle.board_meters.specs.Published.{publishes_hv};

use crate::board::BoardState;
use crate::processors::{time_of, tsc_read};
use board_types::{Access, HV_FORMAT, HvParts, MSR_HV_REFERENCE_TSC, ProcessorParts};
use clk_units::bit;
use host_counter::{Anchor, TimeFault};
use hv_page::{HvPage, HvReply, published, reply, scale_of, withdrawn};
use tsc_scale::{ratio, tsc_by};

/// The page before it is written first.
pub const NO_HV: HvParts = HvParts {
    number: 0,
    version: 0,
    cpu: 0,
    scale: 0,
    offset: 0,
    tsc_offset: 0,
};

impl BoardState {
    /// The reference page of Hyper-V; 0 where the format has none.
    pub fn hv_page(&self) -> HvPage
        ensures value { result ≡ hv_in self.now.hv }
        ensures version { IsVersion result.version }
    {
        page_in(&self.hv)
    }

    /// What a read of the reference page at count `h` answers. It moves no time and takes no number.
    #[tactic(auto, unfolding(crate::specs::Hv::hv_reply))]
    pub fn hv_of(&self, h: u64) -> Result<HvReply, TimeFault>
        ensures ok { OnOk result (HasTime self.now.anchor h) }
        ensures value { IfOk result (λ r. r ≡ hv_reply self.now h) }
        ensures fault { IfErr result (λ f. time_fault self.now.anchor h ≡ Some f) }
    {
        self.time_to(h)?;
        let tsc = tsc_by(
            self.hv.tsc_offset,
            h,
            ratio(self.guest_khz, self.anchor.khz),
        );
        Ok(reply(&page_in(&self.hv), tsc))
    }
}

impl BoardState {
    /// The reference page published at the greatest count of all accesses, by its processor. A board whose format has
    /// none stays as it is.
    #[tactic(auto, unfolding(crate::specs::Hv::hv_published_at_host))]
    pub fn publish_hv(&mut self)
        requires version { self.old.hv.version < LAST_VERSION }
        ensures { self.new ≡ hv_published_at_host self.old }
    {
        if self.format < HV_FORMAT {
            return;
        }
        let writer = self.processors[self.hv.cpu as usize];
        self.hv = hv_published(self.hv, self.anchor, self.guest_khz, self.host, &writer);
    }
}

impl BoardState {
    /// The page after an access of processor `cpu` at count `h`.
    #[tactic(auto, unfolding(crate::specs::Hv::hv_after))]
    pub(crate) fn hv_after(&self, cpu: u8, h: u64, a: Access) -> HvParts
        requires time { HasTime self.now.anchor h }
        requires cpu { cpu < self.now.cpus }
        requires version { IsTrue (publishes_hv a) → self.now.hv.version < LAST_VERSION }
        ensures { result ≡ hv_after self.now.anchor self.now.guest_khz cpu h a self.now.processors
            self.now.hv }
    {
        match a {
            Access::MsrWrite { msr, value } => if msr == MSR_HV_REFERENCE_TSC {
                let written = HvParts {
                    number: value,
                    cpu,
                    ..self.hv
                };
                let writer = &self.processors[cpu as usize];
                hv_published(written, self.anchor, self.guest_khz, h, writer)
            } else {
                self.hv
            },
            _ => self.hv,
        }
    }
}

/// The page.
fn page_in(p: &HvParts) -> HvPage
    ensures { result ≡ hv_in p.now }
{
    HvPage {
        version: u64::from(p.version),
        scale: p.scale,
        offset: p.offset,
        tsc_offset: p.tsc_offset,
    }
}

/// The same with another page.
fn with_page(p: HvParts, page: &HvPage) -> HvParts
    requires { page.now.version < 4294967296 }
    ensures { result ≡ with_page p page.now }
{
    HvParts {
        version: page.version as u32,
        scale: page.scale,
        offset: page.offset,
        tsc_offset: page.tsc_offset,
        ..p
    }
}

/// The page as it is published at count `h`, by the processor that wrote its number.
#[tactic(auto, unfolding(crate::specs::Hv::hv_published))]
fn hv_published(
    p: HvParts,
    anchor: Anchor,
    guest_khz: u64,
    h: u64,
    writer: &ProcessorParts,
) -> HvParts
    requires rates { AreRates anchor guest_khz }
    requires time { HasTime anchor h }
    requires version { p.version < LAST_VERSION }
    ensures { result ≡ hv_published anchor guest_khz h writer.now p }
{
    let before = page_in(&p);
    let page = if bit(0, p.number) {
        let tsc = tsc_read(writer, anchor, guest_khz, h);
        let now = time_of(anchor, h);
        published(&before, guest_khz, writer.offset, tsc, now)
    } else {
        withdrawn(&before)
    };
    with_page(p, &page)
}

/// Whether the fields of the reference page are valid.
pub(crate) fn is_hv(p: &HvParts, format: u8, guest_khz: u64, cpus: u8) -> bool
    requires rate { IsKhz guest_khz }
    requires some { 1 ≤ cpus }
    ensures { IsTrue result ↔ IsHv format guest_khz cpus p.now }
{
    if format < HV_FORMAT || p.version == 0 {
        return *p == NO_HV;
    }
    let scale = if bit(0, p.number) {
        scale_of(guest_khz)
    } else {
        0
    };
    p.version % 2 == 0
        && p.cpu < cpus
        && p.scale == scale
        && (p.scale != 0 || (p.offset == 0 && p.tsc_offset == 0))
}
