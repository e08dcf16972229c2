//! All that a board holds, and the conditions on it.
ghost use Rattle.std.specs.Prelude.{
  ◌≡◌,
  ℕ,
  ◌+◌,
  ◌*◌,
  ◌<◌,
  ◌≤◌,
  ◌↔◌,
  IsTrue,
  IsSome,
  IfSome,
  length,
  map,
  slice_index_or,
};
ghost use Rattle.std.specs.Option.{SomeIff};
ghost use Rattle.clk_units.specs.Ranges.{IsKhz};
ghost use Rattle.host_counter.specs.Time.{time_at};
ghost use Rattle.pvclock_page.specs.Scale.{mul_for, shift_for};
ghost use Rattle.board_types.specs.declared.parts.TheConstants.{MOST_ACCESSES};
ghost use Rattle.board_types.specs.Setup.{has_messages};
ghost use Rattle.local_apics.specs.Parts.{AreApicsOf};
ghost use Rattle.local_apics.specs.Places.{no_timer};
ghost use Rattle.board_devices.specs.Lines.{levels};
ghost use Rattle.board_devices.specs.Places.{no_line};
ghost use Rattle.board_core.specs.Time.{devices_in};
ghost use Rattle.host_counter.specs.Time.{HasTime};
ghost use Rattle.board_core.specs.Apics.{apics_of, apics_in};
ghost use Rattle.board_core.specs.Conditions.{
  IsFormat,
  AreRates,
  IsWall,
  IsProcessor,
  AreProcessors,
  AreRises,
  IsJoined,
  IsBoard,
};
ghost use Rattle.board_core.specs.Refusals.{meters_of};
ghost use Rattle.board_core.specs.private.Places.{IsPlace, IsCount};

use crate::apics::{apics_in, apics_of};
use crate::board::BoardState;
use crate::hv::is_hv;
use crate::processors::NO_PROCESSOR;
use board_devices::{DeviceParts, Devices};
use board_meters::{Meters, Tally};
use board_types::{
    BoardParts, HvParts, LAST_FORMAT, MOST_ACCESSES, ProcessorParts, SECOND_NS, has_messages,
    processors_of, timers_of,
};
use clk_units::{KHZ_MAX, KHZ_MIN, RANGE_NS};
use host_counter::Anchor;
use irq_edges::Lines;
use lapic_timer::ApicParts;
use local_apics::LocalApics;
use pvclock_page::scale_of;
use tick_policy::TickParts;

impl BoardState {
    /// All fields, as a saved state keeps them.
    pub fn parts(&self) -> BoardParts
        ensures value { result ≡ self.now }
        ensures valid { IsBoard result }
    {
        let devices = self.devices.parts();
        let ticks = devices.ticks;
        let apics = self.apics.parts();
        let apic = apics.timers;
        let apic_ticks = apics.lines;
        let processors = self.processors;
        let rises = self.rises;
        BoardParts {
            format: self.format,
            cpus: self.cpus,
            anchor: self.anchor,
            host: self.host,
            guest_khz: self.guest_khz,
            accesses: self.accesses,
            greatest: self.greatest,
            slew_ns: devices.slew_ns,
            pit: devices.pit,
            rtc: devices.rtc,
            hpet: devices.hpet,
            ticks,
            wall_number: self.wall_number,
            wall_version: self.wall_version,
            wall_sec: self.wall_sec,
            wall_nsec: self.wall_nsec,
            processors,
            rises,
            apic,
            apic_ticks,
            hv: self.hv,
        }
    }

    /// The greatest count of all accesses.
    pub fn host(&self) -> u64
        ensures { result ≡ self.now.host }
    {
        self.host
    }

    /// The fields of the devices. A caller learns here that all conditions on a board hold.
    pub fn device_parts(&self) -> DeviceParts
        ensures value { result ≡ devices_in self.now }
        ensures valid { IsBoard self.now }
    {
        self.devices.parts()
    }

    /// The number written to MSR_KVM_WALL_CLOCK.
    pub fn wall_number(&self) -> u64
        ensures { result ≡ self.now.wall_number }
    {
        self.wall_number
    }

    /// The version of the wall clock's words.
    pub fn wall_version(&self) -> u32
        ensures { result ≡ self.now.wall_version }
    {
        self.wall_version
    }

    /// The seconds of the wall clock at power on.
    pub fn wall_sec(&self) -> u32
        ensures { result ≡ self.now.wall_sec }
    {
        self.wall_sec
    }

    /// Its nanoseconds at power on.
    pub fn wall_nsec(&self) -> u32
        ensures { result ≡ self.now.wall_nsec }
    {
        self.wall_nsec
    }

    /// The fields of the processors; places from `cpus` on hold 0.
    pub fn processors(&self) -> &[ProcessorParts; 64]
        ensures value { result.now ≡ self.now.processors }
        ensures places { length self.now.processors ≡ 64 }
    {
        let _places = places(&self.processors);
        &self.processors
    }

    /// How often each line went up, in order of line numbers.
    pub fn rises(&self) -> [u64; 6]
        ensures { result ≡ self.now.rises }
    {
        self.rises
    }

    /// The fields of the timer of a processor's local APIC.
    pub fn apic(&self, cpu: u8) -> ApicParts
        requires { cpu < 64 }
        ensures { result ≡ slice_index_or self.now.apic cpu no_timer }
    {
        self.apics.timer_parts(cpu)
    }

    /// The fields of its tick line.
    pub fn apic_tick(&self, cpu: u8) -> TickParts
        requires { cpu < 64 }
        ensures { result ≡ slice_index_or self.now.apic_ticks cpu no_line }
    {
        self.apics.line_parts(cpu)
    }

    /// The fields of the reference page of Hyper-V.
    pub fn hv(&self) -> HvParts
        ensures { result ≡ self.now.hv }
    {
        self.hv
    }

    /// The meters of the board, which go on without it.
    #[tactic(auto, unfolding(crate::specs::Refusals::meters_of))]
    pub fn tally(&self) -> Tally
        ensures { result ≡ meters_of self.now }
    {
        Tally::of_meters(Meters {
            format: self.format,
            cpus: self.cpus,
            anchor: self.anchor,
            host: self.host,
            accesses: self.accesses,
            wall_version: self.wall_version,
            hv_version: self.hv.version,
            versions: versions_of(&self.processors),
        })
    }

    /// The board with these fields, or None exactly where a condition on them fails.
    pub fn of_parts(parts: BoardParts) -> Option<BoardState>
        ensures valid { IsSome result ↔ IsBoard parts }
        ensures value { IfSome result (λ b. b ≡ parts) }
    {
        let devices = Devices::of_parts(devices_in(&parts))?;
        let apics = LocalApics::of_parts(apics_of(parts.format, parts.cpus), &apics_in(&parts))?;
        let time_ns = time_of_parts(&parts)?;
        let processors = parts.processors;
        let rises = parts.rises;
        if are_joined(&parts, time_ns, &devices.lines()) {
            Some(BoardState {
                format: parts.format,
                cpus: parts.cpus,
                anchor: parts.anchor,
                host: parts.host,
                time_ns,
                guest_khz: parts.guest_khz,
                accesses: parts.accesses,
                greatest: parts.greatest,
                devices,
                wall_number: parts.wall_number,
                wall_version: parts.wall_version,
                wall_sec: parts.wall_sec,
                wall_nsec: parts.wall_nsec,
                apics,
                processors,
                rises,
                hv: parts.hv,
            })
        } else {
            None
        }
    }
}

/// A board has places for 64 processors.
fn places(processors: &[ProcessorParts; 64]) -> usize
    ensures { length processors.now ≡ 64 }
{
    processors.len()
}

/// The fields of the devices.
fn devices_in(parts: &BoardParts) -> DeviceParts
    ensures { result ≡ devices_in parts.now }
{
    let ticks = parts.ticks;
    DeviceParts {
        pit: parts.pit,
        rtc: parts.rtc,
        hpet: parts.hpet,
        ticks,
        slew_ns: parts.slew_ns,
    }
}

/// The time at the count of the host, where the rates are in range and the count has one.
fn time_of_parts(parts: &BoardParts) -> Option<u64>
    ensures { SomeIff result
        (AreRates parts.now.anchor parts.now.guest_khz × HasTime parts.now.anchor parts.now.host)
        (time_at parts.now.anchor parts.now.host) }
{
    if are_rates(&parts.anchor, parts.guest_khz) {
        time_of(&parts.anchor, parts.host)
    } else {
        None
    }
}

/// Whether both rates are in range.
fn are_rates(anchor: &Anchor, guest_khz: u64) -> bool
    ensures { IsTrue result ↔ AreRates anchor.now guest_khz }
{
    KHZ_MIN <= anchor.khz && anchor.khz <= KHZ_MAX && KHZ_MIN <= guest_khz && guest_khz <= KHZ_MAX
}

/// The time at a count, where it has one.
fn time_of(anchor: &Anchor, h: u64) -> Option<u64>
    requires { IsKhz anchor.now.khz }
    ensures { SomeIff result (HasTime anchor.now h) (time_at anchor.now h) }
{
    match anchor.time(h) {
        Ok(ns) => Some(ns),
        Err(_) => None,
    }
}

/// Whether a board has the processors, timers and message registers of its format.
fn fits_format(parts: &BoardParts) -> bool
    ensures { IsTrue result ↔ (IsFormat parts.now.format parts.now.cpus parts.now.hpet.timers
        × (parts.now.hpet.messages ≡ has_messages parts.now.format)) }
{
    is_format(parts.format, parts.cpus, parts.hpet.timers)
        && parts.hpet.messages == has_messages(parts.format)
}

/// Whether a format has this many processors and timers.
fn is_format(format: u8, cpus: u8, timers: u8) -> bool
    ensures { IsTrue result ↔ IsFormat format cpus timers }
{
    1 <= format
        && format <= LAST_FORMAT
        && 1 <= cpus
        && cpus <= processors_of(format)
        && timers == timers_of(format)
}

/// Whether the wall clock's fields are valid.
fn is_wall(number: u64, version: u32, nsec: u32) -> bool
    ensures { IsTrue result ↔ IsWall number version nsec }
{
    version % 2 == 0 && (version != 0 || number == 0) && nsec < SECOND_NS
}

/// Whether a processor's fields are valid, by the scale of the guest's rate.
fn is_processor(p: &ProcessorParts, guest_khz: u64, mul: u32, shift: i8) -> bool
    requires mul { mul ≡ mul_for (guest_khz * 1000) }
    requires shift { shift ≡ shift_for (guest_khz * 1000) }
    ensures { IsTrue result ↔ IsProcessor guest_khz p.now }
{
    if p.version == 0 {
        return *p == NO_PROCESSOR;
    }
    p.version % 2 == 0
        && p.system_time < RANGE_NS
        && (p.flags == 1 || p.flags == 3)
        && p.mul == mul
        && p.shift == shift
}

/// Whether the place `k` of the processors is valid.
fn is_place(k: usize, cpus: u8, p: &ProcessorParts, guest_khz: u64, mul: u32, shift: i8) -> bool
    requires mul { mul ≡ mul_for (guest_khz * 1000) }
    requires shift { shift ≡ shift_for (guest_khz * 1000) }
    ensures { IsTrue result ↔ IsPlace guest_khz cpus k p.now }
{
    if k < cpus as usize {
        return is_processor(p, guest_khz, mul, shift);
    }
    *p == NO_PROCESSOR
}

/// Whether all processors are valid.
fn are_processors(ps: &[ProcessorParts; 64], cpus: u8, guest_khz: u64) -> bool
    requires { IsKhz guest_khz }
    ensures { IsTrue result ↔ AreProcessors guest_khz cpus ps.now }
{
    let (mul, shift) = scale_of(guest_khz * 1000);
    for k in 0..64 {
        if !is_place(k, cpus, &ps[k], guest_khz, mul, shift) {
            return false;
        }
    }
    true
}

/// Whether no tick line has more due ticks than this.
fn are_due(ticks: &[TickParts], most: u64) -> bool
    ensures { IsTrue result ↔
        ((k : ℕ) → k < length ticks.now → (slice_index_or ticks.now k no_line).counts.due ≤ most) }
{
    for k in 0..ticks.len() {
        if ticks[k].counts.due > most {
            return false;
        }
    }
    true
}

/// Whether a count of rises is valid.
fn is_count(format: u8, accesses: u64, up: bool, count: u64) -> bool
    requires { accesses ≤ MOST_ACCESSES }
    ensures { IsTrue result ↔ IsCount format accesses up count }
{
    count <= accesses + u64::from(up) && (2 <= format || count == 0)
}

/// Whether all counts of rises are valid.
fn are_rises(format: u8, accesses: u64, lines: &Lines, rises: &[u64; 6]) -> bool
    requires { accesses ≤ MOST_ACCESSES }
    ensures { IsTrue result ↔ AreRises format accesses lines.now.levels rises.now }
{
    for k in 0..6 {
        if !is_count(format, accesses, lines.levels[k], rises[k]) {
            return false;
        }
    }
    true
}

/// Whether the devices and the rest of a board fit.
fn are_joined(parts: &BoardParts, time_ns: u64, lines: &Lines) -> bool
    requires rates { AreRates parts.now.anchor parts.now.guest_khz }
    requires time { HasTime parts.now.anchor parts.now.host }
    requires time_ns { time_ns ≡ time_at parts.now.anchor parts.now.host }
    requires lines { lines.now.levels ≡ levels (devices_in parts.now) }
    requires apics { AreApicsOf (apics_of parts.now.format parts.now.cpus) (apics_in parts.now) }
    ensures { IsTrue result ↔ IsJoined parts.now }
{
    parts.accesses <= MOST_ACCESSES
        && fits_format(parts)
        && are_due(&parts.ticks, time_ns + parts.accesses)
        && is_wall(parts.wall_number, parts.wall_version, parts.wall_nsec)
        && are_processors(&parts.processors, parts.cpus, parts.guest_khz)
        && are_rises(parts.format, parts.accesses, lines, &parts.rises)
        && are_due(&parts.apic_ticks, time_ns + parts.accesses)
        && is_hv(&parts.hv, parts.format, parts.guest_khz, parts.cpus)
}

/// The versions of all pages.
fn versions_of(processors: &[ProcessorParts; 64]) -> [u32; 64]
    ensures { result ≡ map (λ p. p.version) processors.now }
{
    let mut versions = [0; 64];
    for k in 0..64 {
        versions[k] = processors[k].version;
    }
    versions
}
