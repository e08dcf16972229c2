//! One timer over a run.
ghost use Rattle.std.specs.Prelude.{
  ◌≡◌,
  ◌≢◌,
  ℕ,
  ◌+◌,
  ◌%◌,
  ◌^◌,
  ◌<◌,
  ◌≤◌,
  true,
  false,
  if◌then◌else◌,
};
ghost use Rattle.tsc_scale.specs.Tsc.{difference};
ghost use Rattle.lapic_timer.specs.Deadline.{IsFirstAt, is_reached};
ghost use Rattle.lapic_timer.specs.Parts.{mode_of, ticks_of};
ghost use Rattle.lapic_timer.specs.Stretch.{nanoseconds};
ghost use Rattle.local_apics.specs.Nanosecond.{AreInRange, ticks_at, tsc_in};
ghost use Rattle.local_apics.specs.private.Span.{IsRun, IsSpan, length_of};
ghost use Rattle.local_apics.specs.private.Stretch.{IsStill, ticks_in};

use host_counter::Anchor;
use lapic_timer::{ApicTimer, first_reach, guest_count_at};
use tsc_scale::Tsc;

/// What gives the TSC of a processor at a nanosecond, but for its own numbers.
#[derive(Clone, Copy, Debug, PartialEq, Eq)]
#[repr(C)]
pub struct TscClock {
    /// The rate, first count and first time of the host's counter.
    pub anchor: Anchor,
    /// The rate of the guest's TSC in kHz.
    pub guest_khz: u64,
}

/// Half of the TSC's numbers: what lies less than this past a deadline has reached it.
const HALF: u64 = 1 << 63;

/// How many nanoseconds a short span has at most, about 18 minutes.
const SHORT: u64 = 1 << 40;

/// More than a TSC grows in a short span.
const FEW: u64 = 1 << 60;

/// The nanoseconds of a run, and the guest's count at the last of them, which all processors share.
#[derive(Clone, Copy)]
pub(crate) struct Span {
    clock: TscClock,
    from: u64,
    to: u64,
    last: u64,
}

impl Span {
    /// The nanoseconds after `from` up to `to`.
    pub(crate) fn new(clock: &TscClock, from: u64, to: u64) -> Span
        requires { IsRun clock.now from to }
        ensures valid { IsSpan result }
        ensures clock { result.clock ≡ clock.now }
        ensures from { result.from ≡ from }
        ensures to { result.to ≡ to }
    {
        let last = guest_count_at(clock.anchor, clock.guest_khz, to);
        Span {
            clock: *clock,
            from,
            to,
            last,
        }
    }

    /// How many nanoseconds there are.
    #[inline]
    pub(crate) fn length(&self) -> u64
        requires { IsSpan self.now }
        ensures { result ≡ length_of self.now }
    {
        self.to - self.from
    }
}

/// The TSC of a processor, where the guest's count is `count`.
pub(crate) fn tsc_by(count: u64, tsc: Tsc) -> u64
    ensures { result ≡ (count + tsc.offset) % 2 ^ 64 }
{
    count.wrapping_add(tsc.offset)
}

/// Runs a timer that counts, whatever the TSC. Answers its ticks.
pub(crate) fn run_counts(timer: &mut ApicTimer, n: u64) -> u64
    requires mode { mode_of timer.old.lvt ≢ 2 }
    ensures state { (tsc : ℕ → ℕ) (from : ℕ) → timer.new ≡ nanoseconds tsc from n timer.old }
    ensures ticks { (tsc : ℕ → ℕ) (from : ℕ) → result ≡ ticks_in tsc from timer.old n }
    ensures few { result ≤ n }
{
    let fires = timer.run(n);
    timer.ticks(fires.count)
}

/// Runs a timer in deadline mode over a span, and answers whether the deadline is reached. One that is reached in a span
/// is reached at its last nanosecond or at its first, since the TSC grows by less than half of its numbers. Mostly the last
/// one tells alone.
#[inline]
pub(crate) fn run_deadline(timer: &mut ApicTimer, span: &Span, tsc: Tsc) -> bool
    requires mode { mode_of timer.old.lvt ≡ 2 }
    requires span { IsSpan span.now }
    ensures state { timer.new ≡ nanoseconds (tsc_in span.now.clock tsc) span.now.from
        (length_of span.now) timer.old }
    ensures ticks { ticks_in (tsc_in span.now.clock tsc) span.now.from timer.old
        (length_of span.now) ≡ (if result then ticks_of timer.new 1 else 0) }
    ensures unchanged { result ≡ false → timer.new ≡ timer.old }
{
    let last = tsc_by(span.last, tsc);
    if timer.reach(last) {
        return true;
    }
    if is_far(span, last, timer.deadline()) {
        return false;
    }
    reach_first(timer, *span, tsc)
}

/// Whether a deadline is far from being reached at the TSC `last` of a short span's last nanosecond.
#[inline(always)]
fn is_far(span: &Span, last: u64, deadline: u64) -> bool
    requires { IsSpan span.now }
    ensures short { result ≡ true → length_of span.now < 2 ^ 40 }
    ensures far { result ≡ true → 2 ^ 63 + 2 ^ 60 ≤ difference last deadline }
{
    span.length() < SHORT && last.wrapping_sub(deadline) >= HALF + FEW
}

/// Whether a deadline is so far off that a span leaves its timer alone.
#[inline(always)]
pub(crate) fn is_far_off(timer: &ApicTimer, span: &Span, tsc: Tsc) -> bool
    requires span { IsSpan span.now }
    ensures { result ≡ true → timer.now.deadline ≢ 0
        → IsStill (tsc_in span.now.clock tsc) span.now.from (length_of span.now) timer.now }
{
    is_far(span, tsc_by(span.last, tsc), timer.deadline())
}

/// The same where the deadline isn't reached at the last nanosecond.
#[inline(never)]
fn reach_first(timer: &mut ApicTimer, span: Span, tsc: Tsc) -> bool
    requires mode { mode_of timer.old.lvt ≡ 2 }
    requires span { IsSpan span }
    requires last { is_reached timer.old.deadline (tsc_in span.clock tsc span.to)
        ≡ false }
    ensures state { timer.new ≡ nanoseconds (tsc_in span.clock tsc) span.from
        (length_of span) timer.old }
    ensures ticks { ticks_in (tsc_in span.clock tsc) span.from timer.old
        (length_of span) ≡ (if result then ticks_of timer.new 1 else 0) }
    ensures unchanged { result ≡ false → timer.new ≡ timer.old }
{
    let clock = span.clock;
    let count = guest_count_at(clock.anchor, clock.guest_khz, span.from + 1);
    timer.reach(tsc_by(count, tsc))
}

/// The first nanosecond after `from` and up to `to` in which a timer ticks that is left alone.
pub(crate) fn next_tick(
    timer: &ApicTimer,
    clock: &TscClock,
    tsc: Tsc,
    from: u64,
    to: u64,
) -> Option<u64>
    requires ranges { AreInRange clock.now from to }
    requires anchored { clock.now.anchor.base_ns ≤ from }
    ensures { IsFirstAt (ticks_at (tsc_in clock.now tsc) from timer.now) from to result }
{
    if timer.is_masked() {
        return None;
    }
    if timer.parts().is_deadline() {
        let deadline = timer.deadline();
        return first_reach(clock.anchor, clock.guest_khz, tsc, deadline, from, to);
    }
    let mut counting = *timer;
    let fires = counting.run(to - from);
    match fires.first {
        Some(n) => Some(from + n),
        None => None,
    }
}
