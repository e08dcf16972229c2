//! The pulses that come next and move the divider's count alone, planned ahead: most calls ask for some of them, and a
//! plan answers these at once.

ghost use Rattle.std.specs.Prelude.{◌≡◌, ◌≤◌, true};
ghost use Rattle.rtc_cycle.specs.Divider.{ticks_in, updates_in};
ghost use Rattle.rtc_cycle.specs.Parts.{IsDivider};
ghost use Rattle.rtc_registers.specs.Access.{after_rtc_read, flagged};
ghost use Rattle.rtc_registers.specs.Parts.{IsRtc};
ghost use Rattle.rtc_registers.specs.Pulses.{rtc_pulsed_times};
ghost use Rattle.rtc_registers.specs.Registers.{divider_of};
ghost use Rattle.rtc_registers.specs.private.Plan.{before_turn, before_tick, plan_of};

use crate::parts::RtcParts;
use crate::registers::{self, PERIODIC, REGISTER_C};
use crate::{RTC_HZ, access};
use rtc_cycle::{Divider, DividerParts};

/// The plan of a clock whose divider is held: more pulses than any other plan has.
const FOREVER: u16 = u16::MAX;

/// How many pulses of a divider that runs begin no second, and end no update cycle in progress.
fn before_turn(p: DividerParts) -> u16
    requires { IsDivider p }
    ensures { result ≡ before_turn p }
{
    let last = if p.cycle { 64 } else { 32_767 };
    last - p.d
}

/// How many pulses of a divider that runs bring no periodic event.
fn before_tick(divider: &Divider) -> u16
    requires valid { IsDivider divider.now }
    requires runs { divider.now.dv ≡ 2 }
    ensures { result ≡ before_tick divider.now }
{
    match divider.first_tick(RTC_HZ) {
        Some(pulse) => (pulse - 1) as u16,
        None => FOREVER,
    }
}

/// The plan of a clock: how many pulses move the divider's count alone. With PF up a periodic event changes nothing. Where
/// the divider is held no pulse does.
#[tactic(auto, unfolding(crate::specs::private::Plan::plan_by))]
pub(crate) fn plan_of(r: &RtcParts) -> u16
    requires { IsRtc r.now }
    ensures { result ≡ plan_of r.now }
{
    let divider = registers::divider(r);
    let parts = divider.parts();
    if parts.dv != 2 {
        return FOREVER;
    }
    let turn = before_turn(parts);
    if registers::is_flagged(r, PERIODIC) {
        turn
    } else {
        turn.min(before_tick(&divider))
    }
}

/// Takes `n` pulses that are planned.
#[inline(always)]
pub(crate) fn take_planned(r: &mut RtcParts, quiet: &mut u16, n: u64)
    requires valid { IsRtc r.old }
    requires planned { quiet.old ≡ plan_of r.old }
    requires within { n ≤ quiet.old }
    ensures state { r.new ≡ rtc_pulsed_times n r.old }
    ensures planned { quiet.new ≡ plan_of r.new }
{
    if *quiet != FOREVER {
        r.d += n as u16;
        *quiet -= n as u16;
    }
}

/// Whether `n` pulses bring no periodic event and no update, as far as that shows at once. With PF up the plan doesn't say
/// it of periodic events.
#[inline(always)]
pub(crate) fn is_quiet(r: &RtcParts, quiet: u16, n: u64) -> bool
    requires valid { IsRtc r.now }
    requires planned { quiet ≡ plan_of r.now }
    ensures within { result ≡ true → n ≤ quiet }
    ensures ticks { result ≡ true → ticks_in (divider_of r.now) n ≡ 0 }
    ensures updates { result ≡ true → updates_in (divider_of r.now) n ≡ 0 }
{
    n <= u64::from(quiet) && (!registers::is_flagged(r, PERIODIC) || has_no_tick(r, n))
}

/// Whether `n` pulses bring no periodic event, as far as that shows at once.
#[inline(always)]
fn has_no_tick(r: &RtcParts, n: u64) -> bool
    requires { IsRtc r.now }
    ensures { result ≡ true → ticks_in (divider_of r.now) n ≡ 0 }
{
    let divider = registers::divider(r);
    divider.is_held() || divider.has_no_tick(n)
}

/// Does what a read does. One of register C clears PF, so it plans anew.
#[inline]
pub(crate) fn leave_read(r: &mut RtcParts, quiet: &mut u16)
    requires valid { IsRtc r.old }
    requires planned { quiet.old ≡ plan_of r.old }
    ensures state { r.new ≡ after_rtc_read r.old }
    ensures planned { quiet.new ≡ plan_of r.new }
{
    if r.index == REGISTER_C {
        access::leave_read(r);
        *quiet = plan_of(r);
    }
}

/// Sets PF, and plans anew.
pub(crate) fn set_pf(r: &mut RtcParts, quiet: &mut u16)
    requires { IsRtc r.old }
    ensures state { r.new ≡ flagged r.old }
    ensures planned { quiet.new ≡ plan_of r.new }
{
    access::set_pf(r);
    *quiet = plan_of(r);
}
