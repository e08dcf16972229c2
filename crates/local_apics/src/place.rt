//! The place of one processor, and the mask of the timers that aren't idle.
ghost use Rattle.std.specs.Prelude.{
  ◌≡◌,
  ◌≢◌,
  ℕ,
  true,
  ◌+◌,
  ◌-◌,
  ◌^◌,
  ◌<◌,
  ◌≤◌,
  ◌↔◌,
  IsTrue,
  slice_index_or,
  slice_set,
  if◌then◌else◌,
};
ghost use Rattle.tick_policy.specs.Line.{ticked_times};
ghost use Rattle.lapic_timer.specs.Parts.{mode_of};
ghost use Rattle.local_apics.specs.Nanosecond.{tscs_of, tsc_in};
ghost use Rattle.local_apics.specs.Parts.{AreApicPlaces, IsPlaceOf, is_idle};
ghost use Rattle.local_apics.specs.Places.{timer_at, line_at, no_tsc};
ghost use Rattle.local_apics.specs.private.Mask.{no_deadline};
ghost use Rattle.local_apics.specs.private.Span.{IsSpan, length_of};
ghost use Rattle.local_apics.specs.private.Stretch.{IsRunAt, IsLookedAt};

use crate::LocalApics;
use crate::parts::{is_no_line, is_no_timer};
use crate::span::{Span, run_counts, run_deadline};
use board_types::ProcessorParts;
use clk_units::bit;
use lapic_timer::{ApicParts, ApicTimer};
use tick_policy::{Policy, TickLine, TickParts};
use tsc_scale::Tsc;

impl LocalApics {
    /// Whether the timers from processor `cpu` on are idle.
    pub(crate) fn is_idle_from(&self, cpu: u8) -> bool
        requires { cpu < 64 }
        ensures { result ≡ true →
            (k : ℕ) → cpu ≤ k → k < 64 → is_idle (timer_at k self.now) ≡ true }
    {
        self.armed >> cpu == 0
    }

    /// Whether the timer of a processor is idle, by its bit of the mask.
    fn is_idle(&self, cpu: u8) -> bool
        requires { cpu < 64 }
        ensures value { result ≡ is_idle (timer_at cpu self.now) }
        ensures joined { AreApicPlaces self.now }
    {
        !bit(u32::from(cpu), self.armed)
    }

    /// The first processor whose timer isn't idle, or 64.
    #[inline]
    pub(crate) fn first_armed(&self) -> u8
        ensures idle { (k : ℕ) → k < result → is_idle (timer_at k self.now) ≡ true }
        ensures few { result ≤ 64 }
        ensures joined { AreApicPlaces self.now }
    {
        self.armed.trailing_zeros() as u8
    }

    /// The timer of a processor.
    pub(crate) fn timer(&self, cpu: u8) -> ApicTimer
        requires { cpu < 64 }
        ensures value { result ≡ timer_at cpu self.now }
        ensures joined { AreApicPlaces self.now }
    {
        self.timers[cpu as usize]
    }

    /// The tick line of a processor.
    pub(crate) fn line(&self, cpu: u8) -> TickLine
        requires { cpu < 64 }
        ensures value { result ≡ line_at cpu self.now }
        ensures joined { AreApicPlaces self.now }
    {
        self.lines[cpu as usize]
    }

    /// Puts a timer in the place of a processor's.
    pub(crate) fn put(&mut self, cpu: u8, timer: ApicTimer)
        requires { cpu < 64 }
        ensures { self.new ≡ record self.old { timers = slice_set self.old.timers cpu timer } }
    {
        let before = self.timer(cpu);
        self.armed = mask_with(self.armed, cpu, is_idle(&before), is_idle(&timer));
        self.waiting = mask_with(self.waiting, cpu, no_deadline(&before), no_deadline(&timer));
        self.timers[cpu as usize] = timer;
    }

    /// Puts a timer in the place of one that differs neither in being idle nor in waiting for a deadline, so that the masks
    /// stay.
    #[inline]
    fn put_alike(&mut self, cpu: u8, timer: ApicTimer)
        requires place { cpu < 64 }
        requires idle { is_idle timer ≡ is_idle (timer_at cpu self.old) }
        requires deadline { timer.deadline ≡ (timer_at cpu self.old).deadline }
        ensures { self.new ≡ record self.old { timers = slice_set self.old.timers cpu timer } }
    {
        self.timers[cpu as usize] = timer;
    }

    /// Puts a tick line in the place of a processor's.
    pub(crate) fn put_line(&mut self, cpu: u8, line: TickLine)
        requires place { cpu < 64 }
        requires policy { line.policy ≡ Policy.Discard }
        ensures state { self.new ≡ record self.old { lines = slice_set self.old.lines cpu line } }
        ensures joined { AreApicPlaces self.new }
    {
        self.lines[cpu as usize] = line;
    }

    /// Puts the fields of a processor there, where they may be; answers whether they may.
    pub(crate) fn restore(
        &mut self,
        cpu: u8,
        is_there: bool,
        timer: ApicParts,
        line: TickParts,
    ) -> bool
        requires { cpu < 64 }
        ensures valid { IsTrue result ↔ IsPlaceOf is_there timer line }
        ensures state { result ≡ true → self.new ≡ record {
          timers = slice_set self.old.timers cpu timer;
          lines = slice_set self.old.lines cpu line;
        } }
    {
        if !is_there && !(is_no_timer(&timer) && is_no_line(&line)) {
            return false;
        }
        if line.policy.byte() != 0 {
            return false;
        }
        match (ApicTimer::of_parts(timer), TickLine::of_parts(line)) {
            (Some(timer), Some(line)) => {
                self.put(cpu, timer);
                self.put_line(cpu, line);
                true
            }
            _ => false,
        }
    }

    /// Runs the timer of one processor, which waits for no deadline, whatever the TSC. Mostly it doesn't fire.
    #[inline(always)]
    pub(crate) fn run_counting_at(&mut self, cpu: u8, n: u64)
        requires place { cpu < 64 }
        requires none { (timer_at cpu self.old).deadline ≡ 0 }
        requires room { (line_at cpu self.old).counts.due + n < 2 ^ 63 }
        ensures { (tsc : ℕ → ℕ) (from : ℕ) → IsRunAt cpu tsc from n self.old self.new }
    {
        if self.is_idle(cpu) {
            return;
        }
        let mut timer = self.timer(cpu);
        let _parts = timer.parts();
        if timer.glide(n) {
            self.put_alike(cpu, timer);
        } else {
            self.run_fires(cpu, n);
        }
    }

    /// The same where it fires.
    #[inline(never)]
    fn run_fires(&mut self, cpu: u8, n: u64)
        requires place { cpu < 64 }
        requires mode { mode_of (timer_at cpu self.old).lvt ≢ 2 }
        requires room { (line_at cpu self.old).counts.due + n < 2 ^ 63 }
        ensures { (tsc : ℕ → ℕ) (from : ℕ) → IsRunAt cpu tsc from n self.old self.new }
    {
        let mut timer = self.timer(cpu);
        let ticks = run_counts(&mut timer, n);
        self.put(cpu, timer);
        self.tick(cpu, ticks);
    }

    /// Runs the timer of one processor, whose TSC is `tsc`. Mostly a deadline isn't reached.
    pub(crate) fn run_at(&mut self, cpu: u8, span: &Span, tsc: Tsc)
        requires place { cpu < 64 }
        requires span { IsSpan span.now }
        requires room { (line_at cpu self.old).counts.due + length_of span.now < 2 ^ 63 }
        ensures { IsRunAt cpu (tsc_in span.now.clock tsc) span.now.from (length_of span.now)
            self.old self.new }
    {
        if self.timer(cpu).deadline() != 0 {
            let mut timer = self.timer(cpu);
            if !run_deadline(&mut timer, span, tsc) {
                return;
            }
            self.put(cpu, timer);
            let due = timer.ticks(1);
            self.tick(cpu, due);
        } else {
            self.run_counting_at(cpu, span.length());
        }
    }

    /// Looks at the deadline of one processor, whose TSC is `tsc`.
    pub(crate) fn look_at(&mut self, cpu: u8, tsc: u64)
        requires place { cpu < 64 }
        requires room { (line_at cpu self.old).counts.due + 1 < 2 ^ 63 }
        ensures { IsLookedAt cpu tsc self.old self.new }
    {
        let mut timer = self.timer(cpu);
        if !timer.reach(tsc) {
            return;
        }
        self.put(cpu, timer);
        let ticks = timer.ticks(1);
        self.tick(cpu, ticks);
    }

    /// So many ticks of a processor's line.
    fn tick(&mut self, cpu: u8, ticks: u64)
        requires place { cpu < 64 }
        requires room { (line_at cpu self.old).counts.due + ticks < 2 ^ 63 }
        ensures state { self.new ≡ record self.old {
          lines = slice_set self.old.lines cpu (ticked_times ticks (line_at cpu self.old));
        } }
        ensures joined { AreApicPlaces self.new }
    {
        let mut line = self.line(cpu);
        line.due(ticks);
        self.put_line(cpu, line);
    }
}

/// The numbers of the TSC of processor `k`.
#[inline(always)]
#[tactic(auto, using(crate::proofs::Spans::tscs_at))]
pub(crate) fn tsc_of(processors: &[ProcessorParts; 64], k: u8) -> Tsc
    requires { k < 64 }
    ensures { result ≡ slice_index_or (tscs_of processors.now) k no_tsc }
{
    let p = &processors[k as usize];
    Tsc {
        offset: p.offset,
        adjust: p.adjust,
    }
}

/// A mask with the bit of processor `k` clear or not, where it was clear or not.
fn mask_with(mask: u64, k: u8, was_clear: bool, is_clear: bool) -> u64
    requires place { k < 64 }
    requires has { (if was_clear then 0 else 2 ^ k) ≤ mask }
    requires fits { mask - (if was_clear then 0 else 2 ^ k) + (if is_clear then 0 else 2 ^ k) < 2 ^ 64 }
    ensures { result ≡ mask - (if was_clear then 0 else 2 ^ k) + (if is_clear then 0 else 2 ^ k) }
{
    mask - bit_of(k, was_clear) + bit_of(k, is_clear)
}

/// The bit of processor `k`, or none.
fn bit_of(k: u8, is_clear: bool) -> u64
    requires { k < 64 }
    ensures { result ≡ (if is_clear then 0 else 2 ^ k) }
{
    if is_clear { 0 } else { 1 << k }
}

/// Whether a timer is idle.
fn is_idle(timer: &ApicTimer) -> bool
    ensures { result ≡ is_idle timer.now }
{
    timer.current() == 0 && timer.deadline() == 0
}

/// Whether a timer waits for no deadline.
fn no_deadline(timer: &ApicTimer) -> bool
    ensures { result ≡ no_deadline timer.now }
{
    timer.deadline() == 0
}
