//! The quiet pulses that come next, planned ahead: most calls ask for some of them, and a plan answers these at once.

ghost use Rattle.std.specs.Prelude.{◌≡◌, ℕ, ◌<◌, ◌^◌, true};
ghost use Rattle.std.specs.Bool.{OnTrue, OnFalse};
ghost use Rattle.hpet_registers.specs.Parts.{IsHpet, is_running};
ghost use Rattle.hpet_registers.specs.Stretch.{hpet_pulsed_times, matches_of};
ghost use Rattle.hpet_registers.specs.private.Plan.{quiet_below, plan_of};

use crate::parts::HpetParts;

/// How many pulses of a counter that runs bring no match of any timer, and don't take it past its greatest value.
fn quiet_pulses(parts: &HpetParts) -> u64
    requires { IsHpet parts.now }
    ensures { result ≡ quiet_below parts.now.timers parts.now }
{
    let mut quiet = u64::MAX - parts.counter;
    for k in 0..parts.timers {
        quiet = quiet.min(parts.timer[k as usize].pulses_before(parts.counter));
    }
    quiet
}

/// The plan of an HPET: so many pulses change the main counter alone, or nothing where it stands.
#[tactic(auto, unfolding(crate::specs::private::Plan::plan_of))]
pub(crate) fn plan_of(parts: &HpetParts) -> u64
    requires { IsHpet parts.now }
    ensures { result ≡ plan_of parts.now }
{
    if parts.config % 2 == 0 {
        u64::MAX
    } else {
        quiet_pulses(parts)
    }
}

/// Takes `n` pulses if all of them are planned. Answers whether they are.
#[inline(always)]
pub(crate) fn take_planned(parts: &mut HpetParts, quiet: &mut u64, n: u64) -> bool
    requires valid { IsHpet parts.old }
    requires fits { parts.old.counter < 2 ^ 64 }
    requires planned { quiet.old ≡ plan_of parts.old }
    ensures state { OnTrue result (parts.new ≡ hpet_pulsed_times n parts.old) }
    ensures planned { OnTrue result (quiet.new ≡ plan_of parts.new) }
    ensures none { OnTrue result ((k : ℕ) → matches_of k parts.old n ≡ 0) }
    ensures kept { OnFalse result (parts.new ≡ parts.old) }
    ensures runs { OnFalse result (is_running parts.old ≡ true) }
{
    if n > *quiet {
        return false;
    }
    if parts.config % 2 == 1 {
        parts.counter += n;
        *quiet -= n;
    }
    true
}
