//! What accesses do to the processors: their TSCs, their numbers, and the publishing of their pages.
ghost use Rattle.std.specs.Prelude.{
  ◌≡◌,
  ℕ,
  ◌*◌,
  ◌<◌,
  ◌==◌,
  IfSome,
  slice_index_or,
  if◌then◌else◌,
};
ghost use Rattle.clk_units.specs.Ranges.{IsKhz};
ghost use Rattle.host_counter.specs.Time.{time_at};
ghost use Rattle.board_types.specs.declared.parts.TheConstants.{LAST_VERSION};
ghost use Rattle.board_core.specs.Tsc.{no_processor, tsc_of, tsc_read, tsc_after, msr_written};
ghost use Rattle.board_core.specs.Pages.{published, page_in, prepared, published_at, processors_after};
ghost use Rattle.board_meters.specs.Published.{published_by};
ghost use Rattle.host_counter.specs.Time.{HasTime};
ghost use Rattle.board_core.specs.Conditions.{AreRates, IsProcessor};
ghost use Rattle.pvclock_page.specs.Scale.{mul_for, shift_for};

use crate::refusals::time_anew;
use board_meters::published_by;
use board_types::{Access, MSR_KVM_SYSTEM_TIME, MSR_TSC, MSR_TSC_ADJUST, ProcessorParts};
use clk_units::bit;
use host_counter::Anchor;
use pvclock_page::{Page, TSC_STABLE, scale_of};
use tsc_scale::{Tsc, ratio};

/// What the place of a processor that isn't there holds, and each processor at power on.
pub(crate) const NO_PROCESSOR: ProcessorParts = ProcessorParts {
    offset: 0,
    adjust: 0,
    number: 0,
    version: 0,
    tsc_timestamp: 0,
    system_time: 0,
    mul: 0,
    shift: 0,
    flags: 0,
};

/// The page of a processor.
pub(crate) fn page_in(p: &ProcessorParts) -> Page
    ensures { result ≡ page_in p.now }
{
    Page {
        version: u64::from(p.version),
        tsc_timestamp: p.tsc_timestamp,
        system_time: p.system_time,
        mul: p.mul,
        shift: p.shift,
        flags: p.flags,
        offset: p.offset,
        enabled: bit(0, p.number),
    }
}

/// The two numbers of a processor's TSC.
pub(crate) fn tsc_of(p: &ProcessorParts) -> Tsc
    ensures { result ≡ tsc_of p.now }
{
    Tsc {
        offset: p.offset,
        adjust: p.adjust,
    }
}

/// The TSC of a processor at count `h`. Where guest and host count alike, as most do, it asks for no division.
#[tactic(auto, using(crate::proofs::Rates::tsc_alike))]
pub(crate) fn tsc_read(p: &ProcessorParts, anchor: Anchor, guest_khz: u64, h: u64) -> u64
    requires { AreRates anchor guest_khz }
    ensures { result ≡ tsc_read anchor guest_khz h p.now }
{
    if guest_khz == anchor.khz {
        return h.wrapping_add(p.offset);
    }
    tsc_of(p).read(h, ratio(guest_khz, anchor.khz))
}

/// The time at a count that has one.
pub(crate) fn time_of(anchor: Anchor, h: u64) -> u64
    requires rate { IsKhz anchor.khz }
    requires time { HasTime anchor h }
    ensures { result ≡ time_at anchor h }
{
    match time_anew(anchor, h) {
        Ok(ns) => ns,
        Err(_) => unreachable!(),
    }
}

/// The scale of the guest's rate, by a processor: a page that was published has it, and then it asks for no division.
pub(crate) fn scale_by(p: &ProcessorParts, guest_khz: u64) -> (u32, i8)
    requires rate { IsKhz guest_khz }
    requires valid { IsProcessor guest_khz p.now }
    ensures mul { result.0 ≡ mul_for (guest_khz * 1000) }
    ensures shift { result.1 ≡ shift_for (guest_khz * 1000) }
{
    if p.version == 0 {
        scale_of(guest_khz * 1000)
    } else {
        (p.mul, p.shift)
    }
}

/// A processor whose page is published at count `h`, by the scale of the guest's rate.
#[tactic(auto, unfolding(crate::specs::Pages::published))]
pub(crate) fn published(
    p: ProcessorParts,
    anchor: Anchor,
    guest_khz: u64,
    h: u64,
    flags: u8,
    scale: (u32, i8),
) -> ProcessorParts
    requires rates { AreRates anchor guest_khz }
    requires time { HasTime anchor h }
    requires version { p.version < LAST_VERSION }
    requires mul { scale.0 ≡ mul_for (guest_khz * 1000) }
    requires shift { scale.1 ≡ shift_for (guest_khz * 1000) }
    ensures { result ≡ published anchor guest_khz h flags p }
{
    let (mul, shift) = scale;
    ProcessorParts {
        version: p.version + 2,
        tsc_timestamp: tsc_read(&p, anchor, guest_khz, h),
        system_time: time_of(anchor, h),
        mul,
        shift,
        flags,
        ..p
    }
}

/// The TSC after a write of `v` to an MSR.
fn tsc_after(tsc: Tsc, anchor: Anchor, guest_khz: u64, h: u64, msr: u32, v: u64) -> Tsc
    requires { AreRates anchor guest_khz }
    ensures { result ≡ tsc_after anchor guest_khz h msr v tsc }
{
    let mut moved = tsc;
    if msr == MSR_TSC {
        moved.write_tsc(h, ratio(guest_khz, anchor.khz), v);
        return moved;
    }
    if msr == MSR_TSC_ADJUST {
        moved.write_adjust(v);
        return moved;
    }
    tsc
}

/// A processor after a write of `v` to one of its MSRs.
fn msr_written(
    p: ProcessorParts,
    anchor: Anchor,
    guest_khz: u64,
    h: u64,
    msr: u32,
    v: u64,
) -> ProcessorParts
    requires { AreRates anchor guest_khz }
    ensures { result ≡ msr_written anchor guest_khz h msr v p }
{
    let moved = tsc_after(tsc_of(&p), anchor, guest_khz, h, msr, v);
    ProcessorParts {
        offset: moved.offset,
        adjust: moved.adjust,
        number: number_after(p.number, msr, v),
        ..p
    }
}

/// The number in MSR_KVM_SYSTEM_TIME after a write of `v` to an MSR.
fn number_after(number: u64, msr: u32, v: u64) -> u64
    ensures { result ≡ (if msr == MSR_KVM_SYSTEM_TIME then v else number) }
{
    if msr == MSR_KVM_SYSTEM_TIME {
        v
    } else {
        number
    }
}

/// What an access does to a processor before its page is published.
fn prepared(p: ProcessorParts, anchor: Anchor, guest_khz: u64, h: u64, a: Access) -> ProcessorParts
    requires { AreRates anchor guest_khz }
    ensures { result ≡ prepared anchor guest_khz h a p }
{
    match a {
        Access::MsrWrite { msr, value } => msr_written(p, anchor, guest_khz, h, msr, value),
        _ => p,
    }
}

/// What an access does to the processors, where it publishes the page at this place.
fn publish_at(
    processors: &mut [ProcessorParts; 64],
    place: Option<u8>,
    anchor: Anchor,
    guest_khz: u64,
    h: u64,
    a: Access,
)
    requires rates { AreRates anchor guest_khz }
    requires time { HasTime anchor h }
    requires place { IfSome place (λ k. k < 64) }
    requires version { IfSome place (λ k.
        (slice_index_or processors.old k no_processor).version < LAST_VERSION) }
    requires valid { (k : ℕ) → IsProcessor guest_khz (slice_index_or processors.old k no_processor) }
    ensures { processors.new ≡ published_at place anchor guest_khz h a processors.old }
{
    if let Some(place) = place {
        let before = processors[place as usize];
        let scale = scale_by(&before, guest_khz);
        let p = prepared(before, anchor, guest_khz, h, a);
        processors[place as usize] = published(p, anchor, guest_khz, h, TSC_STABLE, scale);
    }
}

/// What an access of processor `cpu` at count `h` does to the processors.
#[tactic(auto, unfolding(crate::specs::Pages::processors_after))]
pub(crate) fn publish_by(
    processors: &mut [ProcessorParts; 64],
    anchor: Anchor,
    guest_khz: u64,
    cpu: u8,
    h: u64,
    a: Access,
)
    requires rates { AreRates anchor guest_khz }
    requires time { HasTime anchor h }
    requires place { IfSome (published_by cpu a) (λ k. k < 64) }
    requires version { IfSome (published_by cpu a) (λ k.
        (slice_index_or processors.old k no_processor).version < LAST_VERSION) }
    requires valid { (k : ℕ) → IsProcessor guest_khz (slice_index_or processors.old k no_processor) }
    ensures { processors.new ≡ processors_after anchor guest_khz cpu h a processors.old }
{
    publish_at(processors, published_by(cpu, a), anchor, guest_khz, h, a);
}
