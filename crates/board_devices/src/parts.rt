//! All fields of the devices, the conditions on them, and five timers or message registers more.
ghost use Rattle.std.specs.Prelude.{
  ◌≡◌,
  ℕ,
  ◌+◌,
  ◌<◌,
  ◌↔◌,
  ◌||◌,
  map,
  nat_lt,
  slice_index_or,
  if◌then◌else◌,
  IsTrue,
  IsSome,
  IfSome,
};
ghost use Rattle.pit_readback.specs.declared.parts.PitParts.{PitParts};
ghost use Rattle.hpet_comparator.specs.Parts.{timer_at_power_on};
ghost use Rattle.hpet_registers.specs.Parts.{timer_at};
ghost use Rattle.tick_policy.specs.Line.{line_at_power_on};
ghost use Rattle.tick_policy.specs.Parts.{IsTickLine};
ghost use Rattle.board_devices.specs.Places.{no_line};
ghost use Rattle.board_devices.specs.Lines.{levels};
ghost use Rattle.board_devices.specs.Parts.{
  IsTimerLine,
  IsDevices,
  AreDevices,
  eight_timers,
  devices_upgraded,
};
ghost use Rattle.board_devices.specs.private.Stretch.{ten};

use crate::act::either;
use crate::clock::clock_up;
use crate::devices::Devices;
use board_types::SLEW_MAX_NS;
use hpet_comparator::{Timer, TimerParts};
use hpet_registers::{Hpet, HpetParts};
use pit_readback::{Pit, PitParts};
use rtc_registers::{Rtc, RtcParts};
use tick_policy::{Policy, TickLine, TickParts};

/// All that runs with time.
#[derive(Clone, Copy, Debug, PartialEq, Eq)]
pub struct DeviceParts {
    /// The 8254.
    pub pit: PitParts,
    /// The MC146818.
    pub rtc: RtcParts,
    /// The HPET.
    pub hpet: HpetParts,
    /// The tick lines: that of the 8254, that of the MC146818, and from place 2 on those of the
    /// HPET's timers.
    pub ticks: [TickParts; 10],
    /// Nanoseconds between catch-up points, 1 to `SLEW_MAX_NS`.
    pub slew_ns: u64,
}

impl Devices {
    /// All fields, as a saved state keeps them.
    pub fn parts(&self) -> DeviceParts
        ensures value { result ≡ self.now }
        ensures valid { AreDevices result }
    {
        DeviceParts {
            pit: self.pit.parts(),
            rtc: self.rtc.parts(),
            hpet: self.hpet.parts(),
            ticks: parts_of_lines(&self.ticks),
            slew_ns: self.slew_ns,
        }
    }

    /// The devices with these fields, or None exactly where a condition on them fails.
    pub fn of_parts(parts: DeviceParts) -> Option<Devices>
        ensures valid { IsSome result ↔ AreDevices parts }
        ensures value { IfSome result (λ d. d ≡ parts) }
    {
        let pit = Pit::of_parts(parts.pit)?;
        let rtc = Rtc::of_parts(parts.rtc)?;
        let hpet = Hpet::of_parts(parts.hpet)?;
        let ticks = lines_of_parts(&parts.ticks)?;
        if are_joined(&rtc, &hpet, &ticks, parts.slew_ns) {
            Some(Devices {
                pit,
                rtc,
                hpet,
                ticks,
                slew_ns: parts.slew_ns,
            })
        } else {
            None
        }
    }

    /// The devices with eight timers, and with message registers where `messages` holds. What
    /// wasn't there, tick lines included, is as at power on, with the policy of the others, and all
    /// else is kept. No line changes its level.
    #[tactic(auto, unfolding(crate::specs::Parts::devices_upgraded))]
    pub fn upgraded(&self, messages: bool) -> Devices
        ensures value { result ≡ devices_upgraded messages self.now }
        ensures levels { levels result ≡ levels self.now }
    {
        let before = self.parts();
        Devices {
            pit: self.pit,
            rtc: self.rtc,
            hpet: with_eight_timers(&self.hpet, messages),
            ticks: lines_upgraded(&self.ticks, before.hpet.timers),
            slew_ns: self.slew_ns,
        }
    }
}

/// The fields of the tick lines.
fn parts_of_lines(lines: &[TickLine; 10]) -> [TickParts; 10]
    ensures value { result ≡ lines.now }
    ensures valid { (k : ℕ) → k < 10 → IsTickLine (slice_index_or result k no_line) }
{
    let mut parts = [lines[0].parts(); 10];
    for k in 0..10 {
        parts[k] = lines[k].parts();
    }
    parts
}

/// The tick lines with these fields, or None where a condition on one of them fails.
fn lines_of_parts(parts: &[TickParts; 10]) -> Option<[TickLine; 10]>
    ensures valid { IsSome result ↔ ((k : ℕ) → k < 10
        → IsTickLine (slice_index_or parts.now k no_line)) }
    ensures value { IfSome result (λ lines. lines ≡ parts.now) }
{
    let mut lines = [TickLine::power_on(Policy::Discard); 10];
    for k in 0..10 {
        match TickLine::of_parts(parts[k]) {
            Some(line) => lines[k] = line,
            None => return None,
        }
    }
    Some(lines)
}

/// Whether the conditions that join the devices hold.
fn are_joined(rtc: &Rtc, hpet: &Hpet, ticks: &[TickLine; 10], slew_ns: u64) -> bool
    ensures { (p : PitParts)
        → IsTrue result ↔ IsDevices (record {
          pit = p;
          rtc = rtc.now;
          hpet = hpet.now;
          ticks = ticks.now;
          slew_ns = slew_ns;
        }) }
{
    1 <= slew_ns
        && slew_ns <= SLEW_MAX_NS
        && are_timer_lines(ticks, hpet.timers())
        && ticks[1].is_up() == clock_up(rtc, hpet)
}

/// Whether the lines of the timers have one policy, and the other places hold nothing.
fn are_timer_lines(ticks: &[TickLine; 10], timers: u8) -> bool
    ensures { IsTrue result ↔ ((k : ℕ) → k < 8
        → IsTimerLine (nat_lt k timers) (slice_index_or ticks.now 2 no_line).policy
        (slice_index_or ticks.now (k + 2) no_line)) }
{
    let policy = ticks[2].policy();
    for k in 0..8u8 {
        if !is_timer_line(k < timers, policy, ticks[k as usize + 2].parts()) {
            return false;
        }
    }
    true
}

/// Whether a line is one of this policy, or nothing where there is no timer.
fn is_timer_line(there: bool, policy: Policy, line: TickParts) -> bool
    ensures { IsTrue result ↔ IsTimerLine there policy line }
{
    if there {
        line.policy == policy
    } else {
        line == TickLine::power_on(Policy::Discard).parts()
    }
}

/// Timer `k` where it is there, else one as at power on.
fn timer_or_new(h: &HpetParts, k: u8) -> TimerParts
    requires { k < 8 }
    ensures { result ≡ (if nat_lt k h.now.timers then timer_at k h.now else timer_at_power_on) }
{
    if k < h.timers {
        h.timer[k as usize]
    } else {
        Timer::power_on().parts()
    }
}

/// The HPET with eight timers, and with message registers where there are some or `messages` holds.
fn with_eight_timers(hpet: &Hpet, messages: bool) -> Hpet
    ensures { result ≡ record hpet.now {
      timers = 8;
      timer = eight_timers hpet.now;
      messages = hpet.now.messages || messages;
    } }
{
    let h = hpet.parts();
    let timer = [
        timer_or_new(&h, 0),
        timer_or_new(&h, 1),
        timer_or_new(&h, 2),
        timer_or_new(&h, 3),
        timer_or_new(&h, 4),
        timer_or_new(&h, 5),
        timer_or_new(&h, 6),
        timer_or_new(&h, 7),
    ];
    match Hpet::of_parts(HpetParts {
        timers: 8,
        timer,
        messages: either(h.messages, messages),
        ..h
    }) {
        Some(upgraded) => upgraded,
        None => unreachable!(),
    }
}

/// The line at a place where it is there, else one as at power on.
fn line_or_new(ticks: &[TickLine; 10], k: usize, timers: u8) -> TickLine
    requires { k < 10 }
    ensures { result ≡ (if nat_lt k (timers + 2) then slice_index_or ticks.now k no_line
        else line_at_power_on (slice_index_or ticks.now 2 no_line).policy) }
{
    if k < timers as usize + 2 {
        ticks[k]
    } else {
        TickLine::power_on(ticks[2].policy())
    }
}

/// The tick lines of eight timers.
fn lines_upgraded(ticks: &[TickLine; 10], timers: u8) -> [TickLine; 10]
    ensures { result ≡ map (λ k. if nat_lt k (timers + 2)
        then slice_index_or ticks.now k no_line
        else line_at_power_on (slice_index_or ticks.now 2 no_line).policy) ten }
{
    [
        line_or_new(ticks, 0, timers),
        line_or_new(ticks, 1, timers),
        line_or_new(ticks, 2, timers),
        line_or_new(ticks, 3, timers),
        line_or_new(ticks, 4, timers),
        line_or_new(ticks, 5, timers),
        line_or_new(ticks, 6, timers),
        line_or_new(ticks, 7, timers),
        line_or_new(ticks, 8, timers),
        line_or_new(ticks, 9, timers),
    ]
}
