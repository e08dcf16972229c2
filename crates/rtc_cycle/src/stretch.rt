//! Many pulses at once: the divider after them, and the events that they bring.

ghost use Rattle.std.specs.Prelude.{◌≡◌, ◌≤◌, ◌<◌, ◌+◌, ◌%◌, ◌^◌, ◌↔◌, IsTrue, true, false};
ghost use Rattle.clk_units.specs.Events.{IsFirst};
ghost use Rattle.rtc_cycle.specs.private.Stretch.{pulses_to_end, stretched};
ghost use Rattle.rtc_cycle.specs.Divider.{period, ticks_in, updates_in};
ghost use Rattle.rtc_cycle.specs.Parts.{IsDivider};

use crate::parts::{CYCLE_END, DividerParts, PULSES, RUNNING};
use crate::recurring::Recurring;

/// The pulses from one periodic event to the next.
#[tactic(auto, using(std::proofs::lemmas::Nat::one_shl))]
fn period_of(rs: u8) -> u16
    requires rate { rs ≤ 15 }
    ensures { result ≡ period rs }
{
    match rs {
        0 => 1,
        1 => 128,
        2 => 256,
        _ => 1 << (rs - 1),
    }
}

/// The pulses up to the end of the cycle in progress, or else of the next second's cycle.
#[inline(always)]
fn pulses_to_end(p: DividerParts) -> u16
    requires { IsDivider p }
    ensures value { result ≡ pulses_to_end p }
    ensures later { 0 < result }
{
    if p.cycle {
        CYCLE_END - p.d
    } else {
        PULSES + CYCLE_END - p.d
    }
}

/// The periodic events of `n` pulses.
pub(crate) fn ticks(p: DividerParts, n: u64) -> Recurring
    requires { IsDivider p }
    ensures count { result.count ≡ ticks_in p n }
    ensures few { result.count ≤ n }
    ensures first { IsFirst (ticks_in p) n result.first }
{
    if p.dv != RUNNING || p.rs == 0 {
        return Recurring::NONE;
    }
    let period = period_of(p.rs);
    Recurring::of(n, (period - p.d % period) as u64, period as u64)
}

/// Whether update cycles end.
fn ends_cycles(p: DividerParts) -> bool
    ensures { IsTrue result ↔ (p.dv ≡ 2) × (p.set ≡ false) }
{
    p.dv == RUNNING && !p.set
}

/// The update cycles that end in `n` pulses.
pub(crate) fn updates(p: DividerParts, n: u64) -> Recurring
    requires { IsDivider p }
    ensures count { result.count ≡ updates_in p n }
    ensures few { result.count ≤ n }
    ensures first { IsFirst (updates_in p) n result.first }
{
    if ends_cycles(p) {
        Recurring::of(n, pulses_to_end(p) as u64, PULSES as u64)
    } else {
        Recurring::NONE
    }
}

/// The divider of a running one after `n` pulses.
fn d_after(d: u16, n: u64) -> u16
    ensures { result ≡ (d + n) % 32768 }
{
    let second = PULSES as u64;
    ((d as u64 + n % second) % second) as u16
}

/// The fields after `n` pulses.
pub(crate) fn after_pulses(p: DividerParts, n: u64) -> DividerParts
    requires { IsDivider p }
    ensures { result ≡ stretched n p }
{
    if p.dv != RUNNING {
        return p;
    }
    let d = d_after(p.d, n);
    DividerParts {
        d,
        cycle: !p.set && (d < CYCLE_END && (p.cycle || n >= (PULSES - p.d) as u64)),
        ..p
    }
}

/// How many of the divider's low bits are those of a period; at rate 0 all.
#[inline(always)]
fn period_bits(rs: u8) -> u32
    requires rate { rs ≤ 15 }
    ensures value { 0 < rs → 2 ^ result ≡ period rs }
    ensures few { result ≤ 15 }
{
    match rs {
        0 => 15,
        1 => 7,
        2 => 8,
        3 => 2,
        4 => 3,
        5 => 4,
        6 => 5,
        7 => 6,
        8 => 7,
        9 => 8,
        10 => 9,
        11 => 10,
        12 => 11,
        13 => 12,
        14 => 13,
        _ => 14,
    }
}

/// Whether `n` pulses, if the divider runs, pass no multiple of the period.
// Where it is held there is no periodic event anyhow.
#[inline(always)]
pub(crate) fn has_no_tick(p: DividerParts, n: u64) -> bool
    requires { IsDivider p }
    ensures { result ≡ true → ticks_in p n ≡ 0 }
{
    let bits = period_bits(p.rs);
    n <= 0xffff && (p.d as u64 + n) >> bits == p.d as u64 >> bits
}
