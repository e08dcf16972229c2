//! Stretches in which nothing comes, or only ticks of the 8254: the devices count their pulses, and no other line is asked.
ghost use Rattle.std.specs.Prelude.{
  ◌≡◌,
  ℕ,
  ◌-◌,
  ◌<◌,
  ◌≤◌,
  ◌^◌,
  true,
  false,
  Some,
  None,
  IfSome,
  slice_index_or,
  if◌then◌else◌,
};
ghost use Rattle.clk_units.specs.Events.{first_at};
ghost use Rattle.clk_units.specs.Pulses.{pulses_from};
ghost use Rattle.pit_readback.specs.declared.TheConstants.{PIT_HZ};
ghost use Rattle.tick_policy.specs.Line.{is_waiting};
ghost use Rattle.board_devices.specs.Places.{no_line, line_at};
ghost use Rattle.board_devices.specs.Run.{IsStretch};
ghost use Rattle.board_devices.specs.private.Pulses.{ArePulses, IsQuiet, IsQuietBesidePit};
ghost use Rattle.board_devices.specs.private.Runs.{HasTicked};

use crate::act::either;
use crate::clock::is_unheard;
use crate::devices::Devices;
use crate::lines::up_at;
use crate::pulse_counts::PulseCounts;
use crate::run::next_point;
use crate::stretch::count_ticks;
use clk_units::first_at;
use pit_counter::Rises;
use pit_readback::PIT_HZ;
use tick_policy::TickLine;

impl Devices {
    /// Whether nothing but rises of OUT 0 comes in a stretch with these pulses: no event of a clock that is heard, no match
    /// of a timer that is enabled, and no catch-up point that finds a line that waits. It may answer false where it would
    /// have to run the devices to know.
    #[inline(always)]
    pub(crate) fn is_quiet_beside_pit(&self, from: u64, to: u64, pulses: PulseCounts) -> bool
        requires range { from < 2 ^ 59 }
        ensures { result ≡ true → IsQuietBesidePit from to pulses self.now }
    {
        (is_unheard(&self.rtc) || self.rtc.is_quiet(pulses.rtc))
            && self.hpet.is_quiet(pulses.hpet)
            && (!self.has_slew()
                || to < next_point(from, self.slew_ns)
                || !is_one_waiting(&self.ticks))
    }

    /// Whether ticks of a line wait for catch-up points, by its policy. The lines of the timers have one policy.
    #[inline(always)]
    fn has_slew(&self) -> bool
        ensures { result ≡ false → (k : ℕ) → k < 10 → is_waiting (line_at k self.now) ≡ false }
    {
        let pit = self.ticks[0].policy().is_slew();
        let rtc = self.ticks[1].policy().is_slew();
        let timers = self.ticks[2].policy().is_slew();
        either(either(pit, rtc), timers)
    }

    /// Runs from nanosecond `from` to `to` where nothing but ticks of the 8254 comes. Answers when line 0 goes up, if it
    /// does: no other line moves.
    #[inline(always)]
    pub(crate) fn run_ticks(&mut self, from: u64, to: u64, pulses: PulseCounts) -> Option<u64>
        requires stretch { IsStretch from to self.old }
        requires pulses { ArePulses from to pulses }
        requires quiet { IsQuietBesidePit from to pulses self.old }
        ensures { HasTicked from to self.old self.new result }
    {
        if self.pit.is_quiet(pulses.pit) {
            self.pass(from, to, pulses);
            return None;
        }
        self.tick(from, to, pulses)
    }

    /// The same where nothing comes at all.
    #[inline(always)]
    fn pass(&mut self, from: u64, to: u64, pulses: PulseCounts)
        requires stretch { IsStretch from to self.old }
        requires pulses { ArePulses from to pulses }
        requires quiet { IsQuiet from to pulses self.old }
        ensures { HasTicked from to self.old self.new None }
    {
        let _clock = self.rtc.parts();
        self.pit.pass(pulses.pit);
        self.rtc.pass(pulses.rtc);
        self.hpet.pass(pulses.hpet);
    }

    /// The same where OUT 0 may rise.
    // The usual tick of a guest is a rise alone: this leaves out all that the other devices could bring.
    #[inline(never)]
    fn tick(&mut self, from: u64, to: u64, pulses: PulseCounts) -> Option<u64>
        requires stretch { IsStretch from to self.old }
        requires pulses { ArePulses from to pulses }
        requires quiet { IsQuietBesidePit from to pulses self.old }
        ensures { HasTicked from to self.old self.new result }
    {
        let _clock = self.rtc.parts();
        let legacy = self.hpet.legacy();
        let hidden = either(up_at(&self.ticks, 0), legacy);
        let rises = self.pit.pulses(pulses.pit);
        self.rtc.pass(pulses.rtc);
        self.hpet.pass(pulses.hpet);
        count_ticks(&mut self.ticks, 0, !legacy, rises.count);
        rise_at(hidden, rises, from, to)
    }
}

/// When the first of these rises of OUT 0 comes, unless it is hidden: it finds its line up, or isn't counted.
#[inline(always)]
fn rise_at(hidden: bool, rises: Rises, from: u64, to: u64) -> Option<u64>
    requires order { from ≤ to }
    requires range { to < 2 ^ 59 }
    requires inside { IfSome rises.first (λ j. j ≤ pulses_from PIT_HZ from (to - from)) }
    ensures value { result ≡ (if hidden then None else first_at PIT_HZ from rises.first) }
    ensures by_end { (t : ℕ) → result ≡ Some t → t ≤ to }
{
    if hidden {
        None
    } else {
        first_at(rises.first, PIT_HZ, from, to)
    }
}

/// Whether a line waits for a catch-up point.
#[inline(never)]
fn is_one_waiting(lines: &[TickLine; 10]) -> bool
    ensures { result ≡ false → (k : ℕ) → k < 10
        → is_waiting (slice_index_or lines.now k no_line) ≡ false }
{
    for k in 0..10 {
        if lines[k].is_waiting() {
            return true;
        }
    }
    false
}
