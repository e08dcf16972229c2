//! Many pulses at once: the divider after them, and what their events change.

ghost use Rattle.std.specs.Prelude.{◌≡◌, ℕ, ◌+◌, ◌-◌, ◌*◌, ◌^◌, ◌<◌, ◌||◌, Some};
ghost use Rattle.std.specs.Option.{is_some};
ghost use Rattle.clk_units.specs.Events.{IsFirst};
ghost use Rattle.rtc_calendar.specs.Updates.{updated_times};
ghost use Rattle.rtc_calendar.specs.Alarms.{matches_in};
ghost use Rattle.rtc_registers.specs.Access.{flagged};
ghost use Rattle.rtc_registers.specs.Parts.{IsRtc};
ghost use Rattle.rtc_registers.specs.Pulses.{moved, rtc_pulsed_times};
ghost use Rattle.rtc_registers.specs.Registers.{flags_byte};
ghost use Rattle.rtc_registers.specs.Registers.{form_of, time_of, alarm_of};
ghost use Rattle.rtc_registers.specs.private.Plan.{plan_of};
ghost use Rattle.rtc_registers.specs.private.Taken.{HasTaken};
ghost use Rattle.rtc_registers.specs.private.Stretch.{second_apart, flags_left};

use crate::events::RtcEvents;
use crate::parts::RtcParts;
use crate::plan::{is_quiet, plan_of, take_planned};
use crate::registers::{self, ALARM, PERIODIC, REGISTER_C, UPDATE_ENDED};
use crate::{RTC_HZ, access};
use rtc_calendar::{TimeBytes, let_pass};
use rtc_cycle::{CycleEvents, DividerParts};

/// The divider moves on, and nothing else changes.
fn move_divider(r: &mut RtcParts, divider: DividerParts)
    ensures { r.new ≡ record r.old { d = divider.d; cycle = divider.cycle } }
{
    r.d = divider.d;
    r.cycle = divider.cycle;
}

/// The divider, the time bytes and register C are replaced.
#[tactic(auto, unfolding(crate::specs::Pulses::moved))]
fn replace(r: &mut RtcParts, divider: DividerParts, time: TimeBytes, flags: u8)
    ensures { r.new ≡ moved divider time flags r.old }
{
    registers::write_time(&mut r.bytes, time);
    r.bytes[REGISTER_C as usize] = flags;
    r.d = divider.d;
    r.cycle = divider.cycle;
}

/// Register C after these events.
fn flags_after(r: &RtcParts, cycle: &CycleEvents, alarm: bool) -> u8
    ensures { result ≡ flags_left cycle.now alarm r.now }
{
    registers::flags_byte(
        registers::is_flagged(r, PERIODIC) || cycle.ticks > 0,
        registers::is_flagged(r, ALARM) || alarm,
        registers::is_flagged(r, UPDATE_ENDED) || cycle.updates > 0,
    )
}

/// The divider moves on, and updates change time bytes and register C; the first update that the alarm matches,
/// updates being counted from 1.
fn take_updates(r: &mut RtcParts, divider: DividerParts, cycle: &CycleEvents) -> Option<u64>
    ensures matched { IsFirst (matches_in (form_of r.old) (alarm_of r.old) (time_of r.old))
        cycle.now.updates result }
    ensures state { r.new
        ≡ moved divider (updated_times (form_of r.old) cycle.now.updates (time_of r.old))
        (flags_left cycle.now (is_some result) r.old) r.old }
{
    let time = registers::time_of(r);
    let form = registers::form_of(r);
    let elapsed = let_pass(time, form, registers::alarm_of(r), cycle.updates);
    let flags = flags_after(r, cycle, elapsed.matched.is_some());
    replace(r, divider, elapsed.bytes, flags);
    elapsed.matched
}

/// The divider moves on, and a tick sets PF.
fn take_ticks(r: &mut RtcParts, divider: DividerParts)
    ensures { r.new ≡ record (flagged r.old) { d = divider.d; cycle = divider.cycle } }
{
    access::set_pf(r);
    move_divider(r, divider);
}

/// The divider moves on. Ticks set PF; updates change the time bytes and register C. The result is the first update that the
/// alarm matches.
fn take_events(r: &mut RtcParts, divider: DividerParts, cycle: &CycleEvents) -> Option<u64>
    requires { IsRtc r.old }
    ensures matched { IsFirst (matches_in (form_of r.old) (alarm_of r.old) (time_of r.old))
        cycle.now.updates result }
    ensures state { r.new
        ≡ moved divider (updated_times (form_of r.old) cycle.now.updates (time_of r.old))
        (flags_left cycle.now (is_some result) r.old) r.old }
{
    if cycle.updates > 0 {
        return take_updates(r, divider, cycle);
    }
    if cycle.ticks > 0 {
        take_ticks(r, divider);
    } else {
        move_divider(r, divider);
    }
    None
}

/// The pulse of the update numbered `matched`, where the first one comes at pulse `first`.
fn update_pulse(first: Option<u64>, matched: Option<u64>) -> Option<u64>
    requires { (f k : ℕ) → first ≡ Some f → matched ≡ Some k
        → (0 < k) × (f + (k - 1) * RTC_HZ < 2 ^ 64) }
    ensures { result ≡ second_apart first matched }
{
    match first {
        Some(pulse) => match matched {
            Some(update) => Some(pulse + (update - 1) * RTC_HZ),
            None => None,
        },
        None => None,
    }
}

/// Lets `n` pulses pass.
// Inlined, it leaves out what its caller doesn't ask of the events.
#[inline(always)]
fn take_pulses(r: &mut RtcParts, n: u64) -> RtcEvents
    requires { IsRtc r.old }
    ensures { HasTaken n r.old r.new result }
{
    let mut divider = registers::divider(r);
    let cycle = divider.pulses(n);
    let matched = take_events(r, divider.parts(), &cycle);
    RtcEvents {
        cycle,
        first_alarm: update_pulse(cycle.first_update, matched),
    }
}

/// Lets `n` pulses pass that may bring events, and plans anew.
#[inline(never)]
fn take_and_plan(r: &mut RtcParts, quiet: &mut u16, n: u64) -> RtcEvents
    requires { IsRtc r.old }
    ensures taken { HasTaken n r.old r.new result }
    ensures planned { quiet.new ≡ plan_of r.new }
{
    let events = take_pulses(r, n);
    *quiet = plan_of(r);
    events
}

/// Lets `n` pulses pass, and returns their events.
#[inline(always)]
pub(crate) fn pulses(r: &mut RtcParts, quiet: &mut u16, n: u64) -> RtcEvents
    requires valid { IsRtc r.old }
    requires planned { quiet.old ≡ plan_of r.old }
    ensures taken { HasTaken n r.old r.new result }
    ensures planned { quiet.new ≡ plan_of r.new }
{
    if is_quiet(r, *quiet, n) {
        take_planned(r, quiet, n);
        return RtcEvents::NONE;
    }
    take_and_plan(r, quiet, n)
}

/// Lets `n` pulses pass that aren't all planned, for a caller that asks for no events.
#[cold]
#[inline(never)]
fn pass_events(r: &mut RtcParts, quiet: &mut u16, n: u64)
    requires { IsRtc r.old }
    ensures state { r.new ≡ rtc_pulsed_times n r.old }
    ensures planned { quiet.new ≡ plan_of r.new }
{
    let _events = take_pulses(r, n);
    *quiet = plan_of(r);
}

/// Lets `n` pulses pass for a caller that asks for no events.
#[inline(always)]
pub(crate) fn pass(r: &mut RtcParts, quiet: &mut u16, n: u64)
    requires valid { IsRtc r.old }
    requires planned { quiet.old ≡ plan_of r.old }
    ensures state { r.new ≡ rtc_pulsed_times n r.old }
    ensures planned { quiet.new ≡ plan_of r.new }
{
    if n <= u64::from(*quiet) {
        take_planned(r, quiet, n);
    } else {
        pass_events(r, quiet, n);
    }
}
