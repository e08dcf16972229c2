//! The quiet pulses that come next, planned ahead: most calls ask for some of them, and a plan answers these at once.

ghost use Rattle.std.specs.Prelude.{◌≡◌, ◌≤◌, ◌<◌, true, IfSome};
ghost use Rattle.std.specs.Bool.{OnTrue, OnFalse};
ghost use Rattle.pit_counter.specs.Count.{modulus, meant_count};
ghost use Rattle.pit_counter.specs.Parts.{IsCounter};
ghost use Rattle.pit_counter.specs.Table.{pulsed_times, rises_in};
ghost use Rattle.pit_counter.specs.private.Plan.{planned_for, planned_period, plan_of};
ghost use Rattle.pit_counter.specs.private.Stretch.{is_rate_running, DividesBy};
ghost use Rattle.pit_counter.specs.private.Taken.{HasTaken};

use crate::count::meant_count;
use crate::division::divide;
use crate::parts::CounterParts;
use crate::rises::{NONE, Rises};
use crate::stretch::{FOREVER, is_still, quiet_for, step_of, take_pulses};
use crate::table::{Effect, next_effect};

/// What the next pulses of a counter do. It follows from the counter's fields, and is kept beside them.
#[derive(Clone, Copy, Debug, PartialEq, Eq)]
#[repr(C)]
pub struct Plan {
    /// So many pulses lower the count, above 0, and change nothing else. For a counter that stands: `FOREVER`.
    pub quiet: u64,
    /// Where the counter divides, the pulses from load to load, of which it has at least two left; elsewhere 0.
    pub period: u32,
    /// How far each of them lowers it.
    pub step: u8,
}

/// For how many pulses with this effect a plan holds.
fn planned_for(effect: Effect, p: &CounterParts) -> u64
    ensures { result ≡ planned_for effect p.now }
{
    if is_still(effect, p.out) {
        return FOREVER;
    }
    quiet_for(effect, p).min(p.ce as u64).saturating_sub(1)
}

/// The period that a pulse with this effect divides by: mode 2 alone counts down to a low OUT.
fn planned_period(effect: Effect, p: &CounterParts) -> u32
    ensures { result ≡ planned_period effect p.now }
{
    match effect {
        Effect::DownToLow => meant_count(p.bits, p.cr),
        _ => 0,
    }
}

/// The plan of a counter.
#[tactic(auto, unfolding(crate::specs::private::Plan::plan_of))]
pub fn plan_of(p: &CounterParts) -> Plan
    ensures { result ≡ plan_of p.now }
{
    let effect = next_effect(p);
    Plan {
        quiet: planned_for(effect, p),
        period: planned_period(effect, p),
        step: step_of(effect),
    }
}

/// The period, where the counter divides.
#[inline(always)]
pub fn period_of(plan: &Plan, p: &CounterParts) -> Option<u32>
    requires planned { plan.now ≡ plan_of p.now }
    ensures { IfSome result (λ period. DividesBy period p.now) }
{
    // That the register has 16 bits bounds the period.
    let _register = p.cr;
    if plan.period == 0 {
        return None;
    }
    Some(plan.period)
}

/// The count after `n` pulses that are planned.
#[inline(always)]
pub fn planned_count(plan: &Plan, p: &CounterParts, n: u64) -> u16
    requires planned { plan.now ≡ plan_of p.now }
    requires quiet { n ≤ plan.now.quiet }
    requires below { p.now.ce < modulus p.now.bits }
    ensures { result ≡ (pulsed_times n p.now).ce }
{
    p.ce - (plan.step as u64 * n) as u16
}

/// Takes `n` pulses if all of them are planned. Answers whether they are.
#[inline(always)]
pub fn take_planned(plan: &mut Plan, p: &mut CounterParts, n: u64) -> bool
    requires planned { plan.old ≡ plan_of p.old }
    requires below { p.old.ce < modulus p.old.bits }
    ensures state { OnTrue result (p.new ≡ pulsed_times n p.old) }
    ensures planned { plan.new ≡ plan_of p.new }
    ensures quiet { OnTrue result (rises_in p.old n ≡ 0) }
    ensures kept { OnFalse result (p.new ≡ p.old) }
{
    if n > plan.quiet {
        return false;
    }
    if plan.step != 0 {
        p.ce -= (plan.step as u64 * n) as u16;
        plan.quiet -= n;
    }
    true
}

/// The plan of a counter in mode 2 that counts with GATE high.
#[inline(always)]
fn rate_plan(p: &CounterParts, period: u32) -> Plan
    requires runs { is_rate_running p.now ≡ true }
    requires period { period ≡ meant_count p.now.bits p.now.cr }
    ensures { result ≡ plan_of p.now }
{
    let quiet = (p.ce as u64).saturating_sub(3);
    if p.ce == 1 {
        return Plan {
            quiet,
            period: 0,
            step: 0,
        };
    }
    Plan {
        quiet,
        period,
        step: 1,
    }
}

/// Takes `n` pulses that aren't all planned, and plans anew.
#[cold]
#[inline(never)]
pub fn take_and_plan(plan: &mut Plan, p: &mut CounterParts, n: u64) -> Rises
    requires valid { IsCounter p.old }
    requires planned { plan.old ≡ plan_of p.old }
    ensures taken { HasTaken n p.old p.new result }
    ensures planned { plan.new ≡ plan_of p.new }
{
    match period_of(plan, p) {
        Some(period) => {
            let rises = divide(p, period, n);
            *plan = rate_plan(p, period);
            rises
        }
        None => take_any(plan, p, n),
    }
}

/// The same of a counter that doesn't divide.
// Called last, and apart: a counter that divides saves no registers for it.
#[inline(never)]
fn take_any(plan: &mut Plan, p: &mut CounterParts, n: u64) -> Rises
    requires { IsCounter p.old }
    ensures taken { HasTaken n p.old p.new result }
    ensures planned { plan.new ≡ plan_of p.new }
{
    let rises = take_pulses(p, n);
    *plan = plan_of(p);
    rises
}
