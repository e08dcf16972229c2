//! Ticks that find their lines up, before the next catch-up point: they are counted, and move no line.
ghost use Rattle.std.specs.Prelude.{
  ◌≡◌,
  ℕ,
  ◌+◌,
  ◌<◌,
  ◌≤◌,
  ◌^◌,
  ◌&&◌,
  true,
  false,
  nat_lt,
  IsTrue,
  length,
  slice_index_or,
  if◌then◌else◌,
};
ghost use Rattle.hpet_comparator.specs.Parts.{is_level};
ghost use Rattle.hpet_registers.specs.Parts.{timer_at};
ghost use Rattle.hpet_registers.specs.Outputs.{has_ticks};
ghost use Rattle.hpet_registers.specs.Stretch.{timer_matches};
ghost use Rattle.tick_policy.specs.Line.{ticked_times};
ghost use Rattle.board_devices.specs.Places.{no_line};
ghost use Rattle.board_devices.specs.private.Runs.{IsReach};

use crate::stretch::count_ticks;
use hpet_comparator::Matches;
use hpet_registers::Hpet;
use pit_counter::Rises;
use rtc_registers::RtcEvents;
use tick_policy::TickLine;

/// Whether the MC146818 had no tick and no update in a stretch, and so no alarm either.
#[inline(always)]
pub(crate) fn brought_nothing(events: &RtcEvents) -> bool
    ensures ticks { IsTrue result → events.now.cycle.ticks ≡ 0 }
    ensures updates { IsTrue result → events.now.cycle.updates ≡ 0 }
{
    events.cycle.ticks == 0 && events.cycle.updates == 0
}

/// Whether what came of the 8254 and the HPET moves no line: no timer of level type matched, and each
/// tick found its line up. No timer from `reach` on matched.
#[inline(always)]
pub(crate) fn finds_up(
    lines: &[TickLine; 10],
    h: &Hpet,
    legacy: bool,
    rises: Rises,
    reach: u8,
    matches: &[Matches; 8],
) -> bool
    requires { IsReach reach matches.now }
    ensures pit { IsTrue result → 0 < rises.count → legacy ≡ false
        → (slice_index_or lines.now 0 no_line).up ≡ true }
    ensures edge { IsTrue result → (k : ℕ) → k < h.now.timers
        → 0 < (timer_matches matches.now k).count → is_level (timer_at k h.now) ≡ false }
    ensures timers { IsTrue result → (k : ℕ) → k < h.now.timers
        → 0 < (timer_matches matches.now k).count → has_ticks k h.now ≡ true
        → (slice_index_or lines.now (k + 2) no_line).up ≡ true }
{
    (rises.count == 0 || legacy || lines[0].is_up()) && timers_find_up(lines, h, reach, matches)
}

/// The same of the timers.
#[inline(always)]
fn timers_find_up(lines: &[TickLine; 10], h: &Hpet, reach: u8, matches: &[Matches; 8]) -> bool
    requires { IsReach reach matches.now }
    ensures edge { IsTrue result → (k : ℕ) → k < h.now.timers
        → 0 < (timer_matches matches.now k).count → is_level (timer_at k h.now) ≡ false }
    ensures timers { IsTrue result → (k : ℕ) → k < h.now.timers
        → 0 < (timer_matches matches.now k).count → has_ticks k h.now ≡ true
        → (slice_index_or lines.now (k + 2) no_line).up ≡ true }
{
    for k in 0..reach {
        if matches[k as usize].count > 0 && !timer_finds_up(lines, h, k) {
            return false;
        }
    }
    true
}

/// Whether a match of timer `k` moves no line.
#[inline(always)]
fn timer_finds_up(lines: &[TickLine; 10], h: &Hpet, k: u8) -> bool
    requires { k < 8 }
    ensures edge { IsTrue result → is_level (timer_at k h.now) ≡ false }
    ensures up { IsTrue result → has_ticks k h.now ≡ true
        → (slice_index_or lines.now (k + 2) no_line).up ≡ true }
{
    !h.timer(k).is_level() && (!h.has_ticks(k) || lines[k as usize + 2].is_up())
}

/// Counts ticks of the timers in a stretch that has no catch-up point: none matched from `reach` on.
#[inline(always)]
pub(crate) fn take_matches(lines: &mut [TickLine; 10], h: &Hpet, reach: u8, matches: &[Matches; 8])
    requires inside { reach ≤ h.now.timers }
    requires reach { IsReach reach matches.now }
    requires rooms { (k : ℕ) → k < 8 → (slice_index_or lines.old (k + 2) no_line).counts.due
        + (timer_matches matches.now k).count < 2 ^ 63 }
    ensures places { length lines.new ≡ 10 }
    ensures front { (j : ℕ) → j < 2
        → slice_index_or lines.new j no_line ≡ slice_index_or lines.old j no_line }
    ensures done { (k : ℕ) → k < h.now.timers → slice_index_or lines.new (k + 2) no_line
        ≡ ticked_times (if has_ticks k h.now then (timer_matches matches.now k).count else 0)
        (slice_index_or lines.old (k + 2) no_line) }
    ensures rest { (j : ℕ) → h.now.timers + 2 ≤ j
        → slice_index_or lines.new j no_line ≡ slice_index_or lines.old j no_line }
{
    for k in 0..reach {
        let count = matches[k as usize].count;
        count_ticks(lines, k as usize + 2, has_due(h, k, count), count);
    }
}

/// Whether timer `k`, which matched `count` times, has ticks that are due.
#[inline(always)]
fn has_due(h: &Hpet, k: u8, count: u64) -> bool
    requires { k < 8 }
    ensures { result ≡ (nat_lt 0 count && has_ticks k h.now) }
{
    count > 0 && h.has_ticks(k)
}
