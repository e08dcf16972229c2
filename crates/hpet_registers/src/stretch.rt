//! The pulses of all timers at once.

ghost use Rattle.std.specs.Prelude.{◌≡◌, ℕ, ◌<◌, ◌≤◌, ◌&&◌, true, nat_lt, if◌then◌else◌};
ghost use Rattle.std.specs.Prelude.{slice_set, bit_or, ◌^◌, ◌+◌, map};
ghost use Rattle.hpet_comparator.specs.Parts.{IsTimer, is_level};
ghost use Rattle.hpet_comparator.specs.Stretch.{pulsed_times, matches_in};
ghost use Rattle.hpet_registers.specs.Parts.{IsHpet, timer_at, is_running};
ghost use Rattle.hpet_registers.specs.Stretch.{with_bits, hpet_pulsed_times, timer_matches};
ghost use Rattle.hpet_registers.specs.private.Matches.{AreMatches, AreMatchesBelow, HasTaken};
ghost use Rattle.hpet_registers.specs.private.Plan.{plan_of};

use crate::parts::HpetParts;
use crate::plan::{plan_of, take_planned};
use hpet_comparator::{MainCounter, Matches, Timer};

/// The status after matches of timer `k`: they set its bit where it is of level type.
fn raised(status: u8, k: u8, level: bool) -> u8
    requires { k < 8 }
    ensures { result ≡ (if level then bit_or status (2 ^ k) else status) }
{
    if level { status | 1 << k } else { status }
}

/// Counts `n` pulses for timer `k`: its matches, and its status bit where it is of level type and
/// matched.
#[inline]
fn pulse_timer(parts: &mut HpetParts, k: u8, n: u64) -> Matches
    requires place { k < 8 }
    requires valid { IsTimer (timer_at k parts.old) }
    ensures state { parts.new
        ≡ record parts.old {
          timer = slice_set
              parts.old.timer
              k
              (pulsed_times parts.old.counter n (timer_at k parts.old));
          status =
              if nat_lt 0 result.count && is_level (timer_at k parts.old)
              then bit_or parts.old.status (2 ^ k)
              else parts.old.status;
        } }
    ensures matches { AreMatches parts.old.counter n (timer_at k parts.old) result }
{
    let before = parts.timer[k as usize];
    let mut timer = Timer::of_valid_parts(before);
    let matches = timer.pulses(parts.counter, n);
    if matches.count > 0 {
        parts.timer[k as usize] = timer.parts();
        parts.status = raised(parts.status, k, before.is_level());
    }
    matches
}

/// How many timers, from the first on, have all that matched: timer `k`, if `count` says that it
/// matched, and else those of the timers before it.
#[inline(always)]
fn reach_with(reach: u8, k: u8, count: u64) -> u8
    requires before { reach ≤ k }
    requires place { k < 8 }
    ensures inside { result ≤ k + 1 }
    ensures more { reach ≤ result }
    ensures here { result ≤ k → count ≡ 0 }
{
    if count > 0 { k + 1 } else { reach }
}

/// Counts `n` pulses of a counter that runs for each timer, and puts the matches of each into
/// `matches`. Answers how many timers, from the first on, have all that matched.
#[inline]
fn pulse_timers(parts: &mut HpetParts, n: u64, matches: &mut [Matches; 8]) -> u8
    requires { IsHpet parts.old }
    ensures state { parts.new
        ≡ record parts.old {
          timer = map (pulsed_times parts.old.counter n) parts.old.timer;
          status = with_bits
              (λ j. nat_lt 0 (matches_in parts.old.counter (timer_at j parts.old) n)
              && is_level (timer_at j parts.old))
              parts.old.timers
              parts.old.status;
        } }
    ensures matches { (k : ℕ) → k < parts.old.timers
        → AreMatches parts.old.counter n (timer_at k parts.old) (timer_matches matches.new k) }
    ensures reach { AreMatchesBelow result parts.old.timers matches.new }
{
    *matches = [Matches::NONE; 8];
    let mut reach = 0;
    for k in 0..parts.timers {
        let timer = pulse_timer(parts, k, n);
        matches[k as usize] = timer;
        reach = reach_with(reach, k, timer.count);
    }
    reach
}

/// Takes `n` pulses that aren't all planned, and plans anew. Puts the matches of each timer into
/// `matches`, and answers how many timers, from the first on, have all that matched.
#[inline(never)]
fn take_and_plan(parts: &mut HpetParts, quiet: &mut u64, n: u64, matches: &mut [Matches; 8]) -> u8
    requires valid { IsHpet parts.old }
    requires fits { parts.old.counter < 2 ^ 64 }
    requires runs { is_running parts.old ≡ true }
    ensures taken { HasTaken n parts.old parts.new matches.new result }
    ensures planned { quiet.new ≡ plan_of parts.new }
{
    let mut counter = MainCounter {
        value: parts.counter,
    };
    let reach = pulse_timers(parts, n, matches);
    counter.pulses(n);
    parts.counter = counter.value;
    *quiet = plan_of(parts);
    reach
}

/// Counts `n` pulses, and puts the matches of each timer into `matches`. Answers how many timers,
/// from the first on, have all that matched.
#[inline(always)]
pub(crate) fn pulse(
    parts: &mut HpetParts,
    quiet: &mut u64,
    n: u64,
    matches: &mut [Matches; 8],
) -> u8
    requires valid { IsHpet parts.old }
    requires fits { parts.old.counter < 2 ^ 64 }
    requires planned { quiet.old ≡ plan_of parts.old }
    ensures taken { HasTaken n parts.old parts.new matches.new result }
    ensures planned { quiet.new ≡ plan_of parts.new }
{
    if take_planned(parts, quiet, n) {
        *matches = [Matches::NONE; 8];
        return 0;
    }
    take_and_plan(parts, quiet, n, matches)
}

/// Counts `n` pulses that aren't all planned, for a caller that asks for no matches.
#[inline(never)]
fn pass_matches(parts: &mut HpetParts, quiet: &mut u64, n: u64)
    requires valid { IsHpet parts.old }
    requires fits { parts.old.counter < 2 ^ 64 }
    requires runs { is_running parts.old ≡ true }
    ensures state { parts.new ≡ hpet_pulsed_times n parts.old }
    ensures planned { quiet.new ≡ plan_of parts.new }
{
    let mut matches = [Matches::NONE; 8];
    let _reach = take_and_plan(parts, quiet, n, &mut matches);
}

/// Counts `n` pulses for a caller that asks for no matches.
#[inline(always)]
pub(crate) fn pass(parts: &mut HpetParts, quiet: &mut u64, n: u64)
    requires valid { IsHpet parts.old }
    requires fits { parts.old.counter < 2 ^ 64 }
    requires planned { quiet.old ≡ plan_of parts.old }
    ensures state { parts.new ≡ hpet_pulsed_times n parts.old }
    ensures planned { quiet.new ≡ plan_of parts.new }
{
    if !take_planned(parts, quiet, n) {
        pass_matches(parts, quiet, n);
    }
}
