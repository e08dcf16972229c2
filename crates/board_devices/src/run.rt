//! The devices over a stretch of nanoseconds in which nobody accesses them.
ghost use Rattle.std.specs.Prelude.{
  ◌≡◌,
  ℕ,
  ◌+◌,
  ◌-◌,
  ◌*◌,
  ◌/◌,
  ◌<◌,
  ◌≤◌,
  ◌^◌,
  ◌&&◌,
  ◌++◌,
  length,
  true,
  false,
  Some,
  None,
  if◌then◌else◌,
};
ghost use Rattle.irq_edges.specs.declared.edges.TheConstants.{EDGE_PLACES};
ghost use Rattle.std.specs.List.{All};
ghost use Rattle.irq_edges.specs.Lines.{line_numbers, level_of, IsOfLine};
ghost use Rattle.irq_edges.specs.Rises.{IsNextRise};
ghost use Rattle.board_devices.specs.Rises.{one_if, lifts};
ghost use Rattle.board_devices.specs.Places.{line_at};
ghost use Rattle.board_devices.specs.Lines.{levels};
ghost use Rattle.board_devices.specs.Run.{IsStretch, run};
ghost use Rattle.board_devices.specs.Parts.{IsDevices};
ghost use Rattle.board_devices.specs.private.Pulses.{
  ArePulses,
  AreHeard,
  is_unheard,
  left_pulses,
};
ghost use Rattle.board_devices.specs.private.Runs.{HasAdvanced, passed, rise_edges};

use crate::clock::{counts_rtc, is_unheard, set_flag};
use crate::devices::Devices;
use crate::found_up::{brought_nothing, finds_up, take_matches};
use crate::levels::{front_times, irq_up, shown_of};
use crate::pulse_counts::{PulseCounts, pulse_counts};
use crate::stretch::{Span, count_ticks, run_clock, run_pit, run_timers};
use hpet_comparator::Matches;
use irq_edges::{Edge, EdgeList, emit};
use rtc_registers::Rtc;

impl Devices {
    /// Runs from nanosecond `from` to `to`, by the pulses of the stretch. Answers whether something came
    /// that could move a line, and then puts into `times` from when on each line is up.
    #[inline(always)]
    fn advance(
        &mut self,
        from: u64,
        to: u64,
        pulses: PulseCounts,
        times: &mut [Option<u64>; 6],
    ) -> bool
        requires stretch { IsStretch from to self.old }
        requires pulses { ArePulses from to pulses }
        ensures { HasAdvanced from to self.old self.new result times.new }
    {
        let heard = heard_counts(&self.rtc, pulses);
        let moved = self.advance_by(from, to, heard, times);
        self.rtc.pass(pulses.rtc - heard.rtc);
        moved
    }

    /// The same by the pulses of the stretch, but for those of a clock that nobody hears: they are
    /// left to the caller. Ticks that find their lines up move none: they are counted alone.
    #[inline(never)]
    fn advance_by(
        &mut self,
        from: u64,
        to: u64,
        pulses: PulseCounts,
        times: &mut [Option<u64>; 6],
    ) -> bool
        requires stretch { IsStretch from to self.old }
        requires pulses { AreHeard from to self.old.rtc pulses }
        ensures ran { HasAdvanced from to self.old
            (passed (left_pulses from to self.old.rtc) self.new) result times.new }
        ensures joined { IsDevices (passed (left_pulses from to self.old.rtc) self.new) }
    {
        let _clock = self.rtc.parts();
        let legacy = self.hpet.legacy();
        let status = self.hpet.parts().status;
        let point = next_point(from, self.slew_ns);
        let mut matches = [Matches::NONE; 8];
        let reach = self.hpet.pulses(pulses.hpet, &mut matches);
        let rises = self.pit.pulses(pulses.pit);
        let shown = shown_of(&self.rtc);
        let events = self.rtc.pulses(pulses.rtc);
        if to < point
            && brought_nothing(&events)
            && finds_up(&self.ticks, &self.hpet, legacy, rises, reach, &matches)
        {
            count_ticks(&mut self.ticks, 0, !legacy, rises.count);
            take_matches(&mut self.ticks, &self.hpet, reach, &matches);
            return false;
        }
        let span = Span { from, to, point };
        let counts = counts_rtc(shown.pie, legacy);
        let pit_up = run_pit(&mut self.ticks, legacy, rises, span);
        let rtc_up = run_clock(&mut self.ticks, counts, &events, span);
        let flag = counts_rtc_up(counts, self.ticks[1].is_up());
        set_flag(&mut self.rtc, flag);
        let irq = irq_up(shown, rtc_up, &events, span);
        *times = front_times(legacy, pit_up, irq);
        run_timers(&mut self.ticks, &self.hpet, status, &matches, span, times);
        true
    }

    /// Runs from nanosecond `from` to `to`, and appends the edges on the way. Six places must be
    /// free. Answers false where there was none.
    // Most stretches bring nothing: a frame of its own would cost as much as what is done here.
    #[inline(always)]
    #[tactic(auto, using(crate::proofs::OfLines::of_lines_run))]
    pub fn run_to(&mut self, from: u64, to: u64, edges: &mut EdgeList) -> bool
        requires stretch { IsStretch from to self.old }
        requires places { length edges.old + 6 ≤ EDGE_PLACES }
        ensures state { self.new ≡ (run from (to - from) self.old).state }
        ensures edges { edges.new ≡ edges.old ++ (run from (to - from) self.old).edges }
        ensures of_lines { All IsOfLine (run from (to - from) self.old).edges }
        ensures still { result ≡ false → edges.new ≡ edges.old }
        ensures few { length edges.new ≤ length edges.old + 6 }
        ensures due { (k : ℕ) → k < 10 → (line_at k self.new).counts.due
            ≤ (line_at k self.old).counts.due + (to - from) }
        ensures lifts { (n : ℕ) → lifts n (run from (to - from) self.old).edges
            + one_if (level_of line_numbers (levels self.old) n)
            ≡ one_if (level_of line_numbers (levels self.new) n) }
    {
        let pulses = pulse_counts(from, to);
        if self.is_quiet_beside_pit(from, to, pulses) {
            let rise = self.run_ticks(from, to, pulses);
            return push_rise(rise, edges);
        }
        let mut times = [None; 6];
        if !self.advance(from, to, pulses, &mut times) {
            return false;
        }
        if !goes_up(&times, from) {
            return false;
        }
        emit(&times, from, to, edges);
        true
    }
}

/// The pulses that a run takes: without those of a clock that nobody hears.
#[inline(always)]
fn heard_counts(rtc: &Rtc, pulses: PulseCounts) -> PulseCounts
    ensures { result ≡ (if is_unheard rtc.now then record pulses { rtc = 0 } else pulses) }
{
    if is_unheard(rtc) {
        PulseCounts { rtc: 0, ..pulses }
    } else {
        pulses
    }
}

/// Appends the edge of line 0 that goes up at a time, where there is one. Answers whether there is.
#[inline(always)]
fn push_rise(rise: Option<u64>, edges: &mut EdgeList) -> bool
    requires { length edges.old < EDGE_PLACES }
    ensures edges { edges.new ≡ edges.old ++ rise_edges rise }
    ensures still { result ≡ false → edges.new ≡ edges.old }
    ensures few { length edges.new ≤ length edges.old + 1 }
{
    match rise {
        Some(at) => {
            edges.push(Edge {
                at,
                line: 0,
                up: true,
            });
            true
        }
        None => false,
    }
}

/// Whether a line goes up after `from`, by the times from which on the lines are up.
fn goes_up(times: &[Option<u64>; 6], from: u64) -> bool
    ensures { result ≡ false → (to : ℕ) → IsNextRise times.now from to None }
{
    for time in times {
        if is_later(*time, from) {
            return true;
        }
    }
    false
}

/// Whether a time, where there is one, lies after `from`.
fn is_later(time: Option<u64>, from: u64) -> bool
    ensures { result ≡ false → (t : ℕ) → time ≡ Some t → t ≤ from }
{
    match time {
        Some(t) => from < t,
        None => false,
    }
}

/// Whether PF is to be set.
fn counts_rtc_up(counts: bool, up: bool) -> bool
    ensures { result ≡ (counts && up) }
{
    counts && up
}

/// The nanoseconds between catch-up points of a board whose setup doesn't say otherwise.
const USUAL_SLEW_NS: u64 = 1_000_000;

/// The first catch-up point after `from`.
// A division by a number that the compiler knows is a product, which takes a tenth of the time.
#[inline(always)]
#[tactic(auto, using(crate::proofs::Times::point_fits))]
pub(crate) fn next_point(from: u64, slew_ns: u64) -> u64
    requires range { from < 2 ^ 59 }
    requires low { 1 ≤ slew_ns }
    requires high { slew_ns ≤ 1000000000 }
    ensures { result ≡ (from / slew_ns + 1) * slew_ns }
{
    if slew_ns == USUAL_SLEW_NS {
        (from / USUAL_SLEW_NS + 1) * USUAL_SLEW_NS
    } else {
        (from / slew_ns + 1) * slew_ns
    }
}
