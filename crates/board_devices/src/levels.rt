//! From when on the lines are up.
ghost use Rattle.std.specs.Prelude.{
  ◌≡◌,
  ◌-◌,
  ◌<◌,
  ◌≤◌,
  ◌^◌,
  ◌∷◌,
  ◌&&◌,
  not,
  [],
  None,
  Some,
  IfSome,
  if◌then◌else◌,
};
ghost use Rattle.rtc_registers.specs.declared.TheConstants.{RTC_HZ};
ghost use Rattle.clk_units.specs.Pulses.{pulses_from};
ghost use Rattle.clk_units.specs.Events.{first_at};
ghost use Rattle.rtc_registers.specs.Registers.{pie_of, af_of, aie_of, uf_of, uie_of};
ghost use Rattle.board_devices.specs.private.Stretch.{either_from, flag_from, slot_of, with_rise};

use crate::stretch::Span;
use clk_units::first_at;
use hpet_registers::Hpet;
use rtc_registers::{RTC_HZ, Rtc, RtcEvents};

/// The earlier of two times.
#[tactic(auto, unfolding(crate::specs::private::Stretch::either_from))]
pub(crate) fn either_from(a: Option<u64>, b: Option<u64>) -> Option<u64>
    ensures { result ≡ either_from a b }
{
    match a {
        None => b,
        Some(x) => match b {
            None => Some(x),
            Some(y) => if x <= y { Some(x) } else { Some(y) },
        },
    }
}

/// From when on a flag is up that is shown where `b` holds.
pub(crate) fn flag_from(b: bool, flag: bool, from: u64, first: Option<u64>) -> Option<u64>
    ensures { result ≡ flag_from b flag from first }
{
    if b {
        if flag { Some(from) } else { first }
    } else {
        None
    }
}

/// What the MC146818 shows of its flags.
#[derive(Clone, Copy)]
pub(crate) struct Shown {
    /// PIE of register B.
    pub(crate) pie: bool,
    /// AF of register C, and AIE.
    pub(crate) af: bool,
    pub(crate) aie: bool,
    /// UF, and UIE.
    pub(crate) uf: bool,
    pub(crate) uie: bool,
}

impl Shown {
    /// Whether IRQF is the tick line: the other interrupts are disabled, as most guests leave them.
    #[inline(always)]
    pub(crate) fn is_tick_line(self) -> bool
        ensures { result ≡ (not self.aie && not self.uie) }
    {
        !self.aie && !self.uie
    }
}

/// What the clock shows.
pub(crate) fn shown_of(rtc: &Rtc) -> Shown
    ensures pie { result.pie ≡ pie_of rtc.now }
    ensures af { result.af ≡ af_of rtc.now }
    ensures aie { result.aie ≡ aie_of rtc.now }
    ensures uf { result.uf ≡ uf_of rtc.now }
    ensures uie { result.uie ≡ uie_of rtc.now }
{
    Shown {
        pie: rtc.pie(),
        af: rtc.af(),
        aie: rtc.aie(),
        uf: rtc.uf(),
        uie: rtc.uie(),
    }
}

/// From when on IRQF is up, by what the clock showed before, by its tick line and by its events.
pub(crate) fn irq_up(shown: Shown, line: Option<u64>, events: &RtcEvents, span: Span) -> Option<u64>
    requires order { span.from ≤ span.to }
    requires range { span.to < 2 ^ 59 }
    requires alarm { IfSome events.now.first_alarm (λ j. j
        ≤ pulses_from RTC_HZ span.from (span.to - span.from)) }
    requires update { IfSome events.now.cycle.first_update (λ j. j
        ≤ pulses_from RTC_HZ span.from (span.to - span.from)) }
    ensures { result ≡ either_from line (either_from
        (flag_from shown.aie shown.af span.from (first_at RTC_HZ span.from events.now.first_alarm))
        (flag_from shown.uie shown.uf span.from
        (first_at RTC_HZ span.from events.now.cycle.first_update))) }
{
    if shown.is_tick_line() {
        return line;
    }
    either_from(line, flags_up(shown, events, span))
}

/// From when on its other flags bring IRQF up: AF and UF, where their interrupts are enabled.
pub(crate) fn flags_up(shown: Shown, events: &RtcEvents, span: Span) -> Option<u64>
    requires order { span.from ≤ span.to }
    requires range { span.to < 2 ^ 59 }
    requires alarm { IfSome events.now.first_alarm (λ j. j
        ≤ pulses_from RTC_HZ span.from (span.to - span.from)) }
    requires update { IfSome events.now.cycle.first_update (λ j. j
        ≤ pulses_from RTC_HZ span.from (span.to - span.from)) }
    ensures { result ≡ either_from
        (flag_from shown.aie shown.af span.from (first_at RTC_HZ span.from events.now.first_alarm))
        (flag_from shown.uie shown.uf span.from
        (first_at RTC_HZ span.from events.now.cycle.first_update)) }
{
    let alarm = first_at(events.first_alarm, RTC_HZ, span.from, span.to);
    let update = first_at(events.cycle.first_update, RTC_HZ, span.from, span.to);
    either_from(
        flag_from(shown.aie, shown.af, span.from, alarm),
        flag_from(shown.uie, shown.uf, span.from, update),
    )
}

/// From when on the six lines are up by the 8254 and the MC146818, where legacy replacement doesn't
/// hide them.
pub(crate) fn front_times(legacy: bool, pit: Option<u64>, irq: Option<u64>) -> [Option<u64>; 6]
    ensures { result ≡ (if legacy then None else pit) ∷ (if legacy then None else irq)
        ∷ None ∷ None ∷ None ∷ None ∷ [] }
{
    if legacy {
        [None; 6]
    } else {
        [pit, irq, None, None, None, None]
    }
}

/// The place, among the six lines, of the one that timer `k` drives.
pub(crate) fn slot_of(h: &Hpet, k: u8) -> Option<usize>
    requires { k < 8 }
    ensures value { result ≡ slot_of k h.now }
    ensures range { IfSome result (λ i. i < 6) }
{
    if h.legacy() && k < 2 {
        return Some(k as usize);
    }
    match h.timer(k).route() {
        20 => Some(2),
        21 => Some(3),
        22 => Some(4),
        23 => Some(5),
        _ => None,
    }
}

/// The line at a slot, where there is one, is up from this time on, too.
pub(crate) fn add_rise(times: &mut [Option<u64>; 6], slot: Option<usize>, time: u64)
    requires { IfSome slot (λ i. i < 6) }
    ensures { times.new ≡ with_rise (Some time) slot times.old }
{
    if let Some(i) = slot {
        times[i] = either_from(times[i], Some(time));
    }
}
