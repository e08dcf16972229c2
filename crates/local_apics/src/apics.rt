//! The timers of all processors.
ghost use Rattle.std.specs.Prelude.{
  ◌≡◌,
  ℕ,
  false,
  ◌+◌,
  ◌-◌,
  ◌^◌,
  ◌<◌,
  ◌≤◌,
  ◌↔◌,
  IsSome,
  IfSome,
  replicate,
};
ghost use Rattle.clk_units.specs.Ranges.{IsKhz};
ghost use Rattle.clk_units.specs.declared.ranges.TheConstants.{RANGE_NS};
ghost use Rattle.lapic_timer.specs.Deadline.{IsFirstAt};
ghost use Rattle.lapic_timer.specs.Registers.{register_read};
ghost use Rattle.local_apics.specs.Nanosecond.{
  AreInRange,
  run,
  looked_all,
  ticks_at,
  tscs_of,
  tsc_in,
  tsc_by_time,
};
ghost use Rattle.local_apics.specs.Parts.{AreIdle, AreApicPlaces, AreApicsOf, apics_at_power_on};
ghost use Rattle.local_apics.specs.Parts.{timers_at_power_on};
ghost use Rattle.local_apics.specs.Places.{timer_at, line_at, no_timer, no_line};
ghost use Rattle.local_apics.specs.Registers.{written_at, eoi_at};
ghost use Rattle.local_apics.specs.private.Span.{IsRun};

use crate::parts::{ApicsParts, NO_PARTS};
use crate::place::tsc_of;
use crate::span::{Span, TscClock, next_tick, tsc_by};
use board_types::ProcessorParts;
use lapic_timer::{ApicParts, ApicRegister, ApicTimer, guest_count_at};
use std::marker::Model;
use tick_policy::{Counts, Policy, TickLine, TickParts};
use tsc_scale::Tsc;

/// The timers of the local APICs of up to 64 processors, and their tick lines. Contracts see all
/// fields, by processor.
#[derive(Clone, Copy)]
#[repr(C)]
pub struct LocalApics {
    /// A bit for each timer that isn't idle.
    pub(crate) armed: u64,
    /// A bit for each of these that waits for a deadline.
    pub(crate) waiting: u64,
    pub(crate) timers: [ApicTimer; 64],
    pub(crate) lines: [TickLine; 64],
}

impl Model for LocalApics {
    ghost use Rattle.local_apics.specs.declared.parts.ApicsParts.{ApicsParts};
    ghost use Rattle.local_apics.specs.View.{parts_of, stored, IsStored, stored-parts_of};

    ghost Value = { ApicsParts };

    ghost view = { parts_of };

    ghost invariant = { IsStored };

    ghost inverse = { stored };

    ghost inverse_ok = { stored-parts_of };
}

impl LocalApics {
    /// The timers of so many processors at power on. The places of others are empty, and stay so
    /// unless they are written.
    pub fn power_on(cpus: u8) -> LocalApics
        requires { cpus ≤ 64 }
        ensures { result ≡ apics_at_power_on cpus }
    {
        LocalApics {
            armed: 0,
            waiting: 0,
            timers: timers_at_power_on(cpus),
            lines: no_lines(),
        }
    }

    /// All fields, as a saved state keeps them.
    pub fn parts(&self) -> ApicsParts
        ensures value { result ≡ self.now }
        ensures valid { AreApicsOf 64 result }
    {
        let _ = &self.armed;
        let mut parts = NO_PARTS;
        for cpu in 0..64 {
            let timer = self.timer(cpu).parts();
            let line = self.line(cpu).parts();
            parts.put(cpu, timer, line);
        }
        parts
    }

    /// The fields of a processor's timer.
    pub fn timer_parts(&self, cpu: u8) -> ApicParts
        requires { cpu < 64 }
        ensures { result ≡ timer_at cpu self.now }
    {
        self.timer(cpu).parts()
    }

    /// The fields of its tick line.
    pub fn line_parts(&self, cpu: u8) -> TickParts
        requires { cpu < 64 }
        ensures { result ≡ line_at cpu self.now }
    {
        self.line(cpu).parts()
    }

    /// The timers and lines of so many processors with these fields, or None exactly where a
    /// condition on them fails. The places of other processors are to be empty.
    pub fn of_parts(cpus: u8, parts: &ApicsParts) -> Option<LocalApics>
        ensures valid { IsSome result ↔ AreApicsOf cpus parts.now }
        ensures value { IfSome result (λ apics. apics ≡ parts.now) }
    {
        let mut apics = LocalApics::power_on(0);
        for cpu in 0..64 {
            if !apics.restore(cpu, cpu < cpus, parts.timer(cpu), parts.line(cpu)) {
                return None;
            }
        }
        Some(apics)
    }

    /// Whether some timer counts or some deadline is armed. Where none is, neither a run nor a look
    /// does anything.
    #[inline]
    pub fn is_armed(&self) -> bool
        ensures idle { (result ≡ false) ↔ AreIdle self.now }
        ensures joined { AreApicPlaces self.now }
    {
        self.armed != 0
    }

    /// Whether a deadline is armed. Where none is, a look does nothing, and no TSC is asked for.
    #[inline]
    pub fn has_deadlines(&self) -> bool
        ensures none { result ≡ false → (k : ℕ) → k < 64 → (timer_at k self.now).deadline ≡ 0 }
        ensures joined { AreApicPlaces self.now }
    {
        self.waiting != 0
    }

    /// Runs all timers from nanosecond `from` to `to`, each with the TSC of its processor: these are
    /// the single nanoseconds between, one after the other.
    pub fn run(&mut self, clock: &TscClock, processors: &[ProcessorParts; 64], from: u64, to: u64)
        requires ranges { AreInRange clock.now from to }
        requires anchored { clock.now.anchor.base_ns ≤ from }
        requires room { (k : ℕ) → k < 64 → (line_at k self.old).counts.due + (to - from) < 2 ^ 63 }
        ensures { self.new
            ≡ run (tsc_by_time clock.now (tscs_of processors.now)) from (to - from) self.old }
    {
        if !self.is_armed() || from == to {
            return;
        }
        if !self.has_deadlines() {
            self.run_each_counting(to - from);
            return;
        }
        if self.is_still(clock, processors, from, to) {
            return;
        }
        self.run_each(clock, processors, from, to);
    }

    /// The same where no timer waits for a deadline, so that no TSC is asked for.
    #[inline(always)]
    fn run_each_counting(&mut self, n: u64)
        requires none { (k : ℕ) → k < 64 → (timer_at k self.old).deadline ≡ 0 }
        requires room { (k : ℕ) → k < 64 → (line_at k self.old).counts.due + n < 2 ^ 63 }
        ensures { (tsc : ℕ → ℕ → ℕ) (from : ℕ) → self.new ≡ run tsc from n self.old }
    {
        for cpu in self.first_armed()..64 {
            if self.is_idle_from(cpu) {
                return;
            }
            self.run_counting_at(cpu, n);
        }
    }

    /// The same, one timer after the other. It stands apart, so that a run in which all deadlines are far off needs no
    /// room for it.
    #[inline(never)]
    fn run_each(&mut self, clock: &TscClock, processors: &[ProcessorParts; 64], from: u64, to: u64)
        requires run { IsRun clock.now from to }
        requires room { (k : ℕ) → k < 64 → (line_at k self.old).counts.due + (to - from) < 2 ^ 63 }
        ensures { self.new
            ≡ run (tsc_by_time clock.now (tscs_of processors.now)) from (to - from) self.old }
    {
        let span = Span::new(clock, from, to);
        for cpu in self.first_armed()..64 {
            if self.is_idle_from(cpu) {
                return;
            }
            let tsc = tsc_of(processors, cpu);
            self.run_at(cpu, &span, tsc);
        }
    }

    /// Looks at the deadlines of all processors at nanosecond `at`, as at the end of an access's
    /// first part.
    pub fn look(&mut self, clock: &TscClock, processors: &[ProcessorParts; 64], at: u64)
        requires in_range { at < RANGE_NS }
        requires host { IsKhz clock.now.anchor.khz }
        requires guest { IsKhz clock.now.guest_khz }
        requires anchored { clock.now.anchor.base_ns ≤ at }
        requires room { (k : ℕ) → k < 64 → (line_at k self.old).counts.due + 1 < 2 ^ 63 }
        ensures { self.new
            ≡ looked_all (λ k. tsc_by_time clock.now (tscs_of processors.now) k at) self.old }
    {
        if !self.has_deadlines() {
            return;
        }
        let count = guest_count_at(clock.anchor, clock.guest_khz, at);
        for cpu in self.first_armed()..64 {
            if self.is_idle_from(cpu) {
                return;
            }
            let tsc = tsc_by(count, tsc_of(processors, cpu));
            self.look_at(cpu, tsc);
        }
    }

    /// What a read of a register of a processor's timer answers.
    pub fn read(&self, cpu: u8, register: ApicRegister) -> u64
        requires { cpu < 64 }
        ensures { result ≡ register_read register (timer_at cpu self.now) }
    {
        self.timer(cpu).read(register)
    }

    /// A write of a register of a processor's timer.
    pub fn write(&mut self, cpu: u8, register: ApicRegister, v: u64)
        requires { cpu < 64 }
        ensures { self.new ≡ written_at cpu register v self.old }
    {
        let mut timer = self.timer(cpu);
        timer.write(register, v);
        self.put(cpu, timer);
    }

    /// The end of the interrupt on a processor: its tick line goes down.
    pub fn eoi(&mut self, cpu: u8)
        requires { cpu < 64 }
        ensures { self.new ≡ eoi_at cpu self.old }
    {
        let mut line = self.line(cpu);
        line.ack();
        self.put_line(cpu, line);
    }

    /// The counts of the ticks of a processor's line: each tick raised it or is lost.
    pub fn counts(&self, cpu: u8) -> Counts
        requires { cpu < 64 }
        ensures value { result ≡ (line_at cpu self.now).counts }
        ensures none_waits { result.queue ≡ 0 }
        ensures sum { result.due ≡ result.rises + result.lost }
    {
        self.line(cpu).counts()
    }

    /// The first nanosecond after `from` and up to `to` in which the timer of a processor ticks if
    /// no access comes: it fires and isn't masked. `tsc` has the numbers of that processor.
    pub fn next_tick(&self, cpu: u8, clock: &TscClock, tsc: Tsc, from: u64, to: u64) -> Option<u64>
        requires place { cpu < 64 }
        requires ranges { AreInRange clock.now from to }
        requires anchored { clock.now.anchor.base_ns ≤ from }
        ensures { IsFirstAt (ticks_at (tsc_in clock.now tsc) from (timer_at cpu self.now))
            from to result }
    {
        next_tick(&self.timer(cpu), clock, tsc, from, to)
    }
}

/// The timers of so many processors at power on, and empty places.
fn timers_at_power_on(cpus: u8) -> [ApicTimer; 64]
    requires { cpus ≤ 64 }
    ensures { result ≡ timers_at_power_on cpus }
{
    let mut timers = [no_timer(); 64];
    for cpu in 0..cpus {
        timers[cpu as usize] = ApicTimer::power_on();
    }
    timers
}

/// An empty place: a timer whose fields are all 0.
fn no_timer() -> ApicTimer
    ensures { result ≡ no_timer }
{
    let mut timer = ApicTimer::power_on();
    timer.write_lvt(0);
    timer
}

/// The lines of empty places: down, and no tick was due.
fn no_lines() -> [TickLine; 64]
    ensures { result ≡ replicate 64 no_line }
{
    [TickLine::power_on(Policy::Discard); 64]
}
