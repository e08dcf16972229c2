//! When a line changes next if no access comes. The devices stay as they are: what a line that is down
//! waits for is asked of a copy of one counter, divider or timer, and a line that is up isn't asked.
ghost use Rattle.std.specs.Prelude.{
  ◌≡◌,
  ℕ,
  ◌+◌,
  ◌-◌,
  ◌<◌,
  ◌≤◌,
  ◌^◌,
  true,
  None,
  IfSome,
  if◌then◌else◌,
};
ghost use Rattle.clk_units.specs.Bits.{bit};
ghost use Rattle.clk_units.specs.Events.{first_at};
ghost use Rattle.pit_readback.specs.declared.TheConstants.{PIT_HZ};
ghost use Rattle.rtc_registers.specs.declared.TheConstants.{RTC_HZ};
ghost use Rattle.hpet_registers.specs.declared.hpet.TheConstants.{HPET_HZ};
ghost use Rattle.pit_counter.specs.Table.{rises_in};
ghost use Rattle.pit_readback.specs.Pit.{counter_of};
ghost use Rattle.rtc_cycle.specs.Divider.{ticks_in};
ghost use Rattle.rtc_registers.specs.Registers.{divider_of};
ghost use Rattle.hpet_comparator.specs.Parts.{is_enabled};
ghost use Rattle.hpet_registers.specs.Parts.{timer_at};
ghost use Rattle.hpet_registers.specs.Outputs.{has_ticks, is_message};
ghost use Rattle.hpet_registers.specs.Stretch.{matches_of};
ghost use Rattle.tick_policy.specs.Stretch.{up_from};
ghost use Rattle.board_devices.specs.Places.{line_at};
ghost use Rattle.board_devices.specs.Run.{IsStretch, IsNextEdge};
ghost use Rattle.board_devices.specs.private.Pulses.{ArePulses};
ghost use Rattle.board_devices.specs.private.Stretch.{flag_from};
ghost use Rattle.board_devices.specs.private.Ahead.{
  first_of,
  pulses_of,
  first_in,
  pit_up,
  clock_line_up,
  irq_up,
  timer_up,
  front_up,
  lines_up,
  is_settled,
};
ghost use Rattle.board_devices.specs.private.Runs.{IsEdgeBy};

use crate::clock::counts_rtc;
use crate::devices::Devices;
use crate::levels::{add_rise, either_from, flags_up, shown_of, slot_of};
use crate::pulse_counts::{PulseCounts, pulse_counts};
use crate::run::next_point;
use crate::stretch::Span;
use clk_units::{RANGE_NS, first_at};
use hpet_registers::{HPET_HZ, Hpet};
use irq_edges::next_rise;
use pit_readback::{PIT_HZ, Pit};
use rtc_registers::{RTC_HZ, Rtc};
use tick_policy::{TickLine, up_from};

/// How far an edge is looked for at first (own).
const SOON_NS: u64 = 1 << 26;

impl Devices {
    /// The first nanosecond after `now` at which a line changes if no access comes, below 2^59.
    // Most boards have an edge soon. Over the whole range a clock that is heard has as many updates as there are seconds.
    pub fn next_edge(&self, now: u64) -> Option<u64>
        requires range { now < 2 ^ 59 }
        requires room { (k : ℕ) → k < 10 → (line_at k self.now).counts.due
            + (RANGE_NS - 1 - now) < 2 ^ 63 }
        ensures { IsNextEdge now self.now result }
    {
        let soon = (now + SOON_NS).min(RANGE_NS - 1);
        match self.edge_by(now, soon) {
            Some(edge) => Some(edge),
            None => self.edge_by(now, RANGE_NS - 1),
        }
    }

    /// The first after `now` and up to `to`.
    fn edge_by(&self, now: u64, to: u64) -> Option<u64>
        requires { IsStretch now to self.now }
        ensures { IsEdgeBy now to self.now result }
    {
        let _clock = self.rtc.parts();
        let _timers = self.hpet.parts();
        let point = next_point(now, self.slew_ns);
        let span = Span {
            from: now,
            to,
            point,
        };
        let pulses = pulse_counts(now, to);
        let front = self.front_up(pulses, span);
        if self.are_timers_settled() {
            return next_rise(&front, now, to);
        }
        let times = self.lines_up(front, pulses.hpet, span);
        next_rise(&times, now, to)
    }

    /// Whether the outputs of all timers stay as they are. Most guests leave the HPET so.
    #[inline(always)]
    fn are_timers_settled(&self) -> bool
        ensures { result ≡ true → (k : ℕ) → k < self.now.hpet.timers → is_settled k self.now ≡ true }
    {
        for k in 0..self.hpet.timers() {
            if !self.is_settled(k) {
                return false;
            }
        }
        true
    }

    /// Whether the output of timer `k` stays as it is: it is up, or nothing brings it up.
    #[inline(always)]
    fn is_settled(&self, k: u8) -> bool
        requires { k < 8 }
        ensures { result ≡ is_settled k self.now }
    {
        let timer = self.hpet.timer(k);
        if timer.is_level() {
            return !timer.is_enabled() || self.hpet.status_bit(k);
        }
        let line = &self.ticks[k as usize + 2];
        if line.is_up() {
            true
        } else if timer.is_enabled() {
            self.hpet.is_message(k)
        } else {
            !line.is_waiting()
        }
    }

    /// From when on the six lines are up in a stretch, by `front` and the timers, whose main counter has
    /// `n` pulses in it.
    #[inline(never)]
    fn lines_up(&self, front: [Option<u64>; 6], n: u64, span: Span) -> [Option<u64>; 6]
        requires order { span.from ≤ span.to }
        requires range { span.to < 2 ^ 59 }
        requires front { front ≡ front_up span self.now }
        requires pulses { n ≡ pulses_of HPET_HZ span }
        ensures { result ≡ lines_up span self.now }
    {
        let mut times = front;
        for k in 0..self.hpet.timers() {
            let output = self.timer_up(k, n, span);
            if let Some(time) = output {
                add_rise(&mut times, slot_of(&self.hpet, k), time);
            }
        }
        times
    }

    /// The same of the 8254 and the MC146818, where legacy replacement doesn't hide them.
    #[inline(always)]
    fn front_up(&self, pulses: PulseCounts, span: Span) -> [Option<u64>; 6]
        requires order { span.from ≤ span.to }
        requires range { span.to < 2 ^ 59 }
        requires pulses { ArePulses span.from span.to pulses }
        ensures { result ≡ front_up span self.now }
    {
        if self.hpet.legacy() {
            return [None; 6];
        }
        let pit = self.pit_up(pulses.pit, span);
        let irq = self.irq_up(pulses.rtc, span);
        [pit, irq, None, None, None, None]
    }

    /// From when on the tick line of the 8254 is up, where legacy replacement doesn't leave it out.
    #[inline(always)]
    fn pit_up(&self, n: u64, span: Span) -> Option<u64>
        requires order { span.from ≤ span.to }
        requires range { span.to < 2 ^ 59 }
        requires pulses { n ≡ pulses_of PIT_HZ span }
        ensures { result ≡ pit_up span self.now }
    {
        let line = &self.ticks[0];
        if line.is_up() {
            return Some(span.from);
        }
        up_by(line, first_rise(&self.pit, n), PIT_HZ, span)
    }

    /// From when on the tick line of the MC146818 is up.
    #[inline(always)]
    fn clock_line_up(&self, n: u64, span: Span) -> Option<u64>
        requires order { span.from ≤ span.to }
        requires range { span.to < 2 ^ 59 }
        requires pulses { n ≡ pulses_of RTC_HZ span }
        ensures { result ≡ clock_line_up span self.now }
    {
        let line = &self.ticks[1];
        if line.is_up() {
            return Some(span.from);
        }
        if !counts_rtc(self.rtc.pie(), self.hpet.legacy()) {
            return None;
        }
        up_by(line, first_tick(&self.rtc, n), RTC_HZ, span)
    }

    /// From when on IRQF is up: with its other interrupts disabled, as most guests leave them, that is
    /// the tick line.
    #[inline(always)]
    fn irq_up(&self, n: u64, span: Span) -> Option<u64>
        requires order { span.from ≤ span.to }
        requires range { span.to < 2 ^ 59 }
        requires pulses { n ≡ pulses_of RTC_HZ span }
        ensures { result ≡ irq_up span self.now }
    {
        let line = self.clock_line_up(n, span);
        let shown = shown_of(&self.rtc);
        if shown.is_tick_line() {
            return line;
        }
        let mut rtc = self.rtc;
        let events = rtc.pulses(n);
        either_from(line, flags_up(shown, &events, span))
    }

    /// From when on the output of timer `k` is up.
    #[inline(always)]
    fn timer_up(&self, k: u8, n: u64, span: Span) -> Option<u64>
        requires place { k < self.now.hpet.timers }
        requires few { k < 8 }
        requires order { span.from ≤ span.to }
        requires range { span.to < 2 ^ 59 }
        requires pulses { n ≡ pulses_of HPET_HZ span }
        ensures { result ≡ timer_up span self.now k }
    {
        if self.hpet.timer(k).is_level() {
            self.level_up(k, n, span)
        } else {
            self.edge_up(k, n, span)
        }
    }

    /// The same of one of level type: its status bit, while it is enabled.
    #[inline(always)]
    fn level_up(&self, k: u8, n: u64, span: Span) -> Option<u64>
        requires place { k < self.now.hpet.timers }
        requires few { k < 8 }
        requires order { span.from ≤ span.to }
        requires range { span.to < 2 ^ 59 }
        requires pulses { n ≡ pulses_of HPET_HZ span }
        ensures { result ≡ flag_from (is_enabled (timer_at k self.now.hpet))
            (bit k self.now.hpet.status) span.from (first_in HPET_HZ (matches_of k self.now.hpet) span) }
    {
        if !self.hpet.timer(k).is_enabled() {
            return None;
        }
        if self.hpet.status_bit(k) {
            return Some(span.from);
        }
        first_at(first_match(&self.hpet, k, n), HPET_HZ, span.from, span.to)
    }

    /// .. and of one of edge type: its tick line, where its matches aren't messages.
    #[inline(always)]
    fn edge_up(&self, k: u8, n: u64, span: Span) -> Option<u64>
        requires place { k < self.now.hpet.timers }
        requires few { k < 8 }
        requires order { span.from ≤ span.to }
        requires range { span.to < 2 ^ 59 }
        requires pulses { n ≡ pulses_of HPET_HZ span }
        ensures { result ≡ (if is_message k self.now.hpet then None
            else up_from span.from span.point span.to
            (if has_ticks k self.now.hpet then first_in HPET_HZ (matches_of k self.now.hpet) span else None)
            (line_at (k + 2) self.now)) }
    {
        if self.hpet.is_message(k) {
            return None;
        }
        let line = &self.ticks[k as usize + 2];
        if line.is_up() {
            return Some(span.from);
        }
        if !self.hpet.has_ticks(k) {
            return up_from(line, span.from, span.to, span.point, None);
        }
        up_by(line, first_match(&self.hpet, k, n), HPET_HZ, span)
    }
}

/// From when on a tick line is up. `first` is the pulse of its device in the stretch that brings the first tick, counted
/// from 1, or none does.
#[inline(always)]
fn up_by(line: &TickLine, first: Option<u64>, hz: u64, span: Span) -> Option<u64>
    requires runs { 0 < hz }
    requires slow { hz ≤ 1000000000 }
    requires order { span.from ≤ span.to }
    requires range { span.to < 2 ^ 59 }
    requires inside { IfSome first (λ j. j ≤ pulses_of hz span) }
    ensures { result ≡ up_from span.from span.point span.to (first_at hz span.from first) line.now }
{
    let first = first_at(first, hz, span.from, span.to);
    up_from(line, span.from, span.to, span.point, first)
}

/// Which of `n` pulses of the 8254, counted from 1, is the first at which OUT of counter 0 rises.
#[inline(always)]
#[tactic(auto, using(crate::proofs::FirstOf::first_rise))]
fn first_rise(pit: &Pit, n: u64) -> Option<u64>
    ensures value { result ≡ first_of (rises_in (counter_of pit.now 0)) n }
    ensures inside { IfSome result (λ j. j ≤ n) }
{
    let mut counter = pit.counter(0);
    let rises = counter.pulses(n);
    rises.first
}

/// Which of `n` pulses of the MC146818's crystal brings the first periodic event.
#[inline(always)]
fn first_tick(rtc: &Rtc, n: u64) -> Option<u64>
    ensures value { result ≡ first_of (ticks_in (divider_of rtc.now)) n }
    ensures inside { IfSome result (λ j. j ≤ n) }
{
    rtc.first_tick(n)
}

/// Which of `n` pulses of the HPET is the first match of timer `k`.
#[inline(always)]
fn first_match(h: &Hpet, k: u8, n: u64) -> Option<u64>
    requires place { k < h.now.timers }
    requires few { k < 8 }
    ensures value { result ≡ first_of (matches_of k h.now) n }
    ensures inside { IfSome result (λ j. j ≤ n) }
{
    let parts = h.parts();
    if parts.config % 2 == 0 {
        return None;
    }
    let before = h.timer(k).pulses_before(parts.counter);
    if n <= before {
        return None;
    }
    Some(before + 1)
}
