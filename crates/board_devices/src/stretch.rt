//! The tick lines over a stretch of nanoseconds.
ghost use Rattle.std.specs.Prelude.{
  ◌≡◌,
  ◌≢◌,
  ℕ,
  ◌+◌,
  ◌-◌,
  ◌<◌,
  ◌≤◌,
  ◌^◌,
  ◌&&◌,
  true,
  false,
  not,
  IsTrue,
  nat_le,
  None,
  IfSome,
  length,
  slice_index_or,
  if◌then◌else◌,
};
ghost use Rattle.clk_units.specs.Bits.{bit};
ghost use Rattle.pit_readback.specs.declared.TheConstants.{PIT_HZ};
ghost use Rattle.rtc_registers.specs.declared.TheConstants.{RTC_HZ};
ghost use Rattle.hpet_registers.specs.declared.hpet.TheConstants.{HPET_HZ};
ghost use Rattle.clk_units.specs.Pulses.{pulses_from};
ghost use Rattle.clk_units.specs.Events.{first_at};
ghost use Rattle.hpet_comparator.specs.Parts.{is_level};
ghost use Rattle.hpet_registers.specs.Parts.{timer_at};
ghost use Rattle.hpet_registers.specs.Outputs.{has_ticks, is_message};
ghost use Rattle.hpet_registers.specs.Stretch.{timer_matches};
ghost use Rattle.tick_policy.specs.Line.{is_waiting, ticked_times};
ghost use Rattle.board_devices.specs.Places.{no_line};
ghost use Rattle.board_devices.specs.private.Stretch.{
  counted,
  timer_ticks,
  moves,
  end_of,
  up_of,
  output_up,
  slots_from,
};
ghost use Rattle.board_devices.specs.private.Runs.{HasRunLine, CanRunTimers, HaveRunTimers};

use crate::levels::{add_rise, flag_from, slot_of};
use clk_units::{bit, first_at};
use hpet_comparator::Matches;
use hpet_registers::{HPET_HZ, Hpet};
use pit_counter::Rises;
use pit_readback::PIT_HZ;
use rtc_registers::{RTC_HZ, RtcEvents};
use tick_policy::{TickLine, run_line};

/// The nanoseconds after `from` and up to `to`.
#[derive(Clone, Copy)]
pub(crate) struct Span {
    /// The nanosecond before the first.
    pub(crate) from: u64,
    /// The last nanosecond.
    pub(crate) to: u64,
    /// The first catch-up point after `from`.
    pub(crate) point: u64,
}

/// The ticks of a line's source over a stretch.
#[derive(Clone, Copy)]
pub(crate) struct Ticks {
    /// Whether ticks and catch-up points reach the line.
    pub(crate) seen: bool,
    /// How many ticks are due.
    pub(crate) count: u64,
    /// The nanosecond of the first of them.
    pub(crate) first: Option<u64>,
}

/// Ticks that are counted where `b` holds.
fn counted(seen: bool, b: bool, count: u64, first: Option<u64>) -> Ticks
    ensures value { result ≡ counted seen b count first }
    ensures few { result.count ≤ count }
{
    if b {
        Ticks { seen, count, first }
    } else {
        Ticks {
            seen,
            count: 0,
            first: None,
        }
    }
}

/// Takes the tick line of the 8254 over a stretch, by the rises of OUT 0; legacy replacement leaves
/// them out. Answers from when on the line is up.
// When the first rise comes is asked for where it tells anything.
pub(crate) fn run_pit(
    lines: &mut [TickLine; 10],
    legacy: bool,
    rises: Rises,
    span: Span,
) -> Option<u64>
    requires order { span.from ≤ span.to }
    requires range { span.to < 2 ^ 59 }
    requires inside { IfSome rises.first (λ j. j
        ≤ pulses_from PIT_HZ span.from (span.to - span.from)) }
    requires room { (slice_index_or lines.old 0 no_line).counts.due + rises.count < 2 ^ 63 }
    ensures places { length lines.new ≡ 10 }
    ensures here { slice_index_or lines.new 0 no_line ≡ end_of span.point span.to
        (counted true (not legacy) rises.count (first_at PIT_HZ span.from rises.first))
        (slice_index_or lines.old 0 no_line) }
    ensures others { (j : ℕ) → j ≢ 0
        → slice_index_or lines.new j no_line ≡ slice_index_or lines.old j no_line }
    ensures up { result ≡ up_of span.from span.point span.to
        (counted true (not legacy) rises.count (first_at PIT_HZ span.from rises.first))
        (slice_index_or lines.old 0 no_line) }
{
    if lines[0].is_up() {
        count_ticks(lines, 0, !legacy, rises.count);
        return Some(span.from);
    }
    let first = first_at(rises.first, PIT_HZ, span.from, span.to);
    let ticks = counted(true, !legacy, rises.count, first);
    run_at(lines, 0, ticks, span)
}

/// Takes the tick line of the MC146818 over a stretch, whose ticks are counted where `b` holds.
/// Answers from when on the line is up.
pub(crate) fn run_clock(
    lines: &mut [TickLine; 10],
    b: bool,
    events: &RtcEvents,
    span: Span,
) -> Option<u64>
    requires order { span.from ≤ span.to }
    requires range { span.to < 2 ^ 59 }
    requires inside { IfSome events.now.cycle.first_tick (λ j. j
        ≤ pulses_from RTC_HZ span.from (span.to - span.from)) }
    requires room { (slice_index_or lines.old 1 no_line).counts.due + events.now.cycle.ticks < 2 ^ 63 }
    ensures places { length lines.new ≡ 10 }
    ensures here { slice_index_or lines.new 1 no_line ≡ end_of span.point span.to
        (counted b b events.now.cycle.ticks
        (first_at RTC_HZ span.from events.now.cycle.first_tick))
        (slice_index_or lines.old 1 no_line) }
    ensures others { (j : ℕ) → j ≢ 1
        → slice_index_or lines.new j no_line ≡ slice_index_or lines.old j no_line }
    ensures up { result ≡ up_of span.from span.point span.to
        (counted b b events.now.cycle.ticks
        (first_at RTC_HZ span.from events.now.cycle.first_tick))
        (slice_index_or lines.old 1 no_line) }
{
    if lines[1].is_up() {
        count_ticks(lines, 1, b, events.cycle.ticks);
        return Some(span.from);
    }
    if !b {
        return None;
    }
    let first = first_at(events.cycle.first_tick, RTC_HZ, span.from, span.to);
    let ticks = counted(true, true, events.cycle.ticks, first);
    run_at(lines, 1, ticks, span)
}

/// Counts `count` ticks of the line at place `k` where `b` holds, whenever they come: that is all
/// that they do to a line that is up.
#[inline(always)]
#[tactic(auto, using(crate::proofs::Idle::no_ticks))]
pub(crate) fn count_ticks(lines: &mut [TickLine; 10], k: usize, b: bool, count: u64)
    requires place { k < 10 }
    requires room { (slice_index_or lines.old k no_line).counts.due + count < 2 ^ 63 }
    ensures places { length lines.new ≡ 10 }
    ensures here { slice_index_or lines.new k no_line
        ≡ ticked_times (if b then count else 0) (slice_index_or lines.old k no_line) }
    ensures others { (j : ℕ) → j ≢ k
        → slice_index_or lines.new j no_line ≡ slice_index_or lines.old j no_line }
{
    if b && count > 0 {
        lines[k].due(count);
    }
}

/// Whether a stretch may change a line: a tick is due, or its catch-up point finds one that waits.
#[inline(always)]
fn moves(line: &TickLine, ticks: Ticks, span: Span) -> bool
    ensures value { result ≡ moves span.point span.to ticks line.now }
    ensures seen { result ≡ true → ticks.seen ≡ true }
{
    ticks.seen
        && (ticks.count > 0
            || (ticks.first.is_some() || (span.point <= span.to && line.is_waiting())))
}

/// Takes the line at place `k` over a stretch that may change it. Answers from when on it is up.
fn run_moved(lines: &mut [TickLine; 10], k: usize, ticks: Ticks, span: Span) -> Option<u64>
    requires place { k < 10 }
    requires seen { ticks.seen ≡ true }
    requires room { (slice_index_or lines.old k no_line).counts.due + ticks.count < 2 ^ 63 }
    ensures { HasRunLine k span ticks lines.old lines.new result }
{
    run_line(
        &mut lines[k],
        span.from,
        span.to,
        span.point,
        ticks.count,
        ticks.first,
    )
}

/// Takes the line at place `k` over a stretch. Answers from when on it is up.
// Most lines of a stretch are left alone: where this is inlined, that takes a few tests.
#[inline(always)]
fn run_at(lines: &mut [TickLine; 10], k: usize, ticks: Ticks, span: Span) -> Option<u64>
    requires place { k < 10 }
    requires room { (slice_index_or lines.old k no_line).counts.due + ticks.count < 2 ^ 63 }
    ensures { HasRunLine k span ticks lines.old lines.new result }
{
    if moves(&lines[k], ticks, span) {
        run_moved(lines, k, ticks, span)
    } else if lines[k].is_up() {
        Some(span.from)
    } else {
        None
    }
}

/// Whether a timer rests in a stretch: it has no match, its line is down, its status bit clear, and
/// no catch-up point finds a tick that waits. Then its output is down, of whichever type it is.
#[inline(always)]
fn rests(line: &TickLine, was_set: bool, matches: Matches, span: Span) -> bool
    ensures count { result ≡ true → matches.count ≡ 0 }
    ensures first { result ≡ true → matches.first ≡ None }
    ensures down { result ≡ true → line.now.up ≡ false }
    ensures clear { result ≡ true → was_set ≡ false }
    ensures still { result ≡ true → (nat_le span.point span.to && is_waiting line.now) ≡ false }
{
    matches.count == 0
        && matches.first.is_none()
        && !line.is_up()
        && !was_set
        && !(span.point <= span.to && line.is_waiting())
}

/// Takes the tick line of timer `k` of an HPET that has had its pulses over a stretch. Answers from
/// when on the timer's output is up; `was_set` is its status bit before.
fn run_timer(
    lines: &mut [TickLine; 10],
    h: &Hpet,
    k: u8,
    was_set: bool,
    matches: Matches,
    span: Span,
) -> Option<u64>
    requires place { k < 8 }
    requires order { span.from ≤ span.to }
    requires range { span.to < 2 ^ 59 }
    requires inside { IfSome matches.first (λ j. j
        ≤ pulses_from HPET_HZ span.from (span.to - span.from)) }
    requires room { (slice_index_or lines.old (k + 2) no_line).counts.due + matches.count < 2 ^ 63 }
    ensures places { length lines.new ≡ 10 }
    ensures here { slice_index_or lines.new (k + 2) no_line
        ≡ end_of span.point span.to (timer_ticks span.from k h.now matches)
        (slice_index_or lines.old (k + 2) no_line) }
    ensures others { (j : ℕ) → j ≢ k + 2
        → slice_index_or lines.new j no_line ≡ slice_index_or lines.old j no_line }
    ensures output { result
        ≡ output_up span k h.now was_set matches (slice_index_or lines.old (k + 2) no_line) }
{
    if rests(&lines[k as usize + 2], was_set, matches, span) {
        return None;
    }
    let timer = h.timer(k);
    let has_ticks = h.has_ticks(k);
    if lines[k as usize + 2].is_up() && !timer.is_level() {
        count_ticks(lines, k as usize + 2, has_ticks, matches.count);
        return unless(is_message(h, k, has_ticks), Some(span.from));
    }
    let first = first_at(matches.first, HPET_HZ, span.from, span.to);
    let ticks = counted(true, has_ticks, matches.count, first);
    let up = run_at(lines, k as usize + 2, ticks, span);
    if timer.is_level() {
        flag_from(timer.is_enabled(), was_set, span.from, first)
    } else {
        unless(is_message(h, k, has_ticks), up)
    }
}

/// Whether the matches of timer `k` are messages, by whether they are ticks: those of an enabled
/// timer of edge type are one or the other.
#[inline(always)]
#[tactic(auto, using(crate::proofs::Sends::message_by_ticks))]
fn is_message(h: &Hpet, k: u8, ticks: bool) -> bool
    requires place { k < 8 }
    requires edge { is_level (timer_at k h.now) ≡ false }
    requires ticks { ticks ≡ has_ticks k h.now }
    ensures { result ≡ is_message k h.now }
{
    !ticks && h.timer(k).is_enabled()
}

/// From when on a line is up, of which nothing is shown while `hidden` holds.
fn unless(hidden: bool, up: Option<u64>) -> Option<u64>
    ensures { result ≡ (if hidden then None else up) }
{
    if hidden { None } else { up }
}

/// The status bit of timer `k`.
fn is_set(status: u8, k: u8) -> bool
    ensures { result ≡ bit k status }
{
    bit(u32::from(k), u64::from(status))
}

/// Whether every timer rests in a stretch, `status` being the HPET's before.
// A guest that leaves the HPET alone has all of them rest, in each stretch.
#[inline(always)]
fn timers_rest(
    lines: &[TickLine; 10],
    h: &Hpet,
    status: u8,
    matches: &[Matches; 8],
    span: Span,
) -> bool
    ensures still { IsTrue result → (k : ℕ) → k < h.now.timers → end_of span.point span.to
        (timer_ticks span.from k h.now (timer_matches matches.now k))
        (slice_index_or lines.now (k + 2) no_line) ≡ slice_index_or lines.now (k + 2) no_line }
    ensures down { IsTrue result → (k : ℕ) → k < h.now.timers → output_up span k h.now
        (bit k status) (timer_matches matches.now k) (slice_index_or lines.now (k + 2) no_line)
        ≡ None }
{
    if status != 0 {
        return false;
    }
    for k in 0..h.timers() {
        if !rests(&lines[k as usize + 2], false, matches[k as usize], span) {
            return false;
        }
    }
    true
}

/// Takes the tick lines of the timers of an HPET that has had its pulses over a stretch, and adds
/// from when on the lines are up that they drive. `status` is the HPET's before.
// Where all timers rest, as in most stretches, that takes a few tests.
#[inline(always)]
pub(crate) fn run_timers(
    lines: &mut [TickLine; 10],
    h: &Hpet,
    status: u8,
    matches: &[Matches; 8],
    span: Span,
    times: &mut [Option<u64>; 6],
)
    requires { CanRunTimers span matches.now lines.old }
    ensures lines { HaveRunTimers span h.now matches.now lines.old lines.new }
    ensures times { times.new
        ≡ slots_from h.now.timers h.now (λ k. output_up span k h.now (bit k status)
        (timer_matches matches.now k) (slice_index_or lines.old (k + 2) no_line)) times.old }
{
    if !timers_rest(lines, h, status, matches, span) {
        run_timers_apart(lines, h, status, matches, span, times);
    }
}

/// The same, with a frame of its own.
#[inline(never)]
fn run_timers_apart(
    lines: &mut [TickLine; 10],
    h: &Hpet,
    status: u8,
    matches: &[Matches; 8],
    span: Span,
    times: &mut [Option<u64>; 6],
)
    requires { CanRunTimers span matches.now lines.old }
    ensures lines { HaveRunTimers span h.now matches.now lines.old lines.new }
    ensures times { times.new
        ≡ slots_from h.now.timers h.now (λ k. output_up span k h.now (bit k status)
        (timer_matches matches.now k) (slice_index_or lines.old (k + 2) no_line)) times.old }
{
    for k in 0..h.timers() {
        let was_set = is_set(status, k);
        let output = run_timer(lines, h, k, was_set, matches[k as usize], span);
        if let Some(time) = output {
            add_rise(times, slot_of(h, k), time);
        }
    }
}
