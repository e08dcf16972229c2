//! Many pulses at once: stretches that count and do nothing else, and single pulses between them, up to
//! where a counter counts in periods.

ghost use Rattle.std.specs.Prelude.{◌≡◌, ◌*◌, ◌%◌, ◌<◌, ◌≤◌, not, if◌then◌else◌};
ghost use Rattle.pit_counter.specs.Count.{modulus};
ghost use Rattle.pit_counter.specs.Parts.{IsCounter};
ghost use Rattle.pit_counter.specs.private.Stretch.{
  step_of,
  is_still,
  height,
  quiet_for,
  glided_count,
  glided,
};
ghost use Rattle.pit_counter.specs.private.Taken.{HasTaken, IsLeap};

use crate::count::{meant_count, modulus};
use crate::division::{divide, is_dividing};
use crate::halves::{is_halving, take_square};
use crate::mode::is_bcd;
use crate::parts::CounterParts;
use crate::rises::{NONE, Rises, joined, with_pulse};
use crate::table::{Effect, affected, has_risen, next_effect};

/// More pulses than are ever asked for.
pub const FOREVER: u64 = u64::MAX;

/// How far the count goes down at each pulse.
pub fn step_of(effect: Effect) -> u8
    ensures value { result ≡ step_of effect }
    ensures small { result ≤ 2 }
{
    match effect {
        Effect::Load(_) | Effect::Stand(_) => 0,
        Effect::DownToHigh | Effect::DownToLow | Effect::DownToStrobe => 1,
        Effect::DownByTwo => 2,
    }
}

/// How far the count is above 0: the whole way round where it is 0.
#[tactic(auto, unfolding(crate::specs::private::Stretch::height))]
pub fn height(p: &CounterParts) -> u64
    ensures value { result ≡ height p.now }
    ensures greatest { result ≤ 65536 }
{
    if p.ce == 0 {
        modulus(p.bits) as u64
    } else {
        p.ce as u64
    }
}

/// Whether a pulse with this effect changes nothing.
pub fn is_still(effect: Effect, out: bool) -> bool
    ensures { result ≡ is_still effect out }
{
    match effect {
        Effect::Stand(level) => same(level, out),
        _ => false,
    }
}

/// How many pulses with this effect leave all but the count as it is, and keep the effect.
#[tactic(auto, unfolding(crate::specs::private::Stretch::quiet_for))]
pub fn quiet_for(effect: Effect, p: &CounterParts) -> u64
    ensures { result ≡ quiet_for effect p.now }
{
    match effect {
        Effect::Load(_) => 0,
        Effect::DownToHigh => {
            if p.out {
                FOREVER
            } else {
                height(p).saturating_sub(1)
            }
        }
        Effect::DownToLow => height(p).saturating_sub(2),
        Effect::DownByTwo => {
            if p.out && p.odd {
                p.ce as u64 / 2
            } else {
                (height(p) / 2).saturating_sub(1)
            }
        }
        Effect::DownToStrobe => quiet_before_strobe(p),
        Effect::Stand(_) => { if is_still(effect, p.out) { FOREVER } else { 0 } }
    }
}

/// The same on the way to a strobe.
#[tactic(auto, unfolding(crate::specs::private::Stretch::quiet_for))]
fn quiet_before_strobe(p: &CounterParts) -> u64
    ensures { result ≡ quiet_for Effect.DownToStrobe p.now }
{
    if !p.out {
        0
    } else if p.armed {
        height(p).saturating_sub(1)
    } else {
        FOREVER
    }
}

/// A number modulo the modulus of the count.
#[tactic(auto, unfolding(crate::specs::Count::modulus))]
fn remainder(bits: u8, n: u64) -> u32
    ensures value { result ≡ n % modulus bits }
    ensures below { result < modulus bits }
{
    if is_bcd(bits) {
        (n % 10_000) as u32
    } else {
        (n % 65_536) as u32
    }
}

/// The count after `n` pulses that each lower it by `step`.
#[tactic(auto, unfolding(crate::specs::private::Stretch::glided_count))]
fn glided_count(bits: u8, ce: u16, step: u8, n: u64) -> u16
    requires below { ce < modulus bits }
    requires small { step ≤ 2 }
    ensures { result ≡ glided_count bits ce (step * n) }
{
    let down = remainder(bits, step as u64 * remainder(bits, n) as u64);
    remainder(bits, (ce as u32 + modulus(bits) - down) as u64) as u16
}

/// The counter after `n` quiet pulses.
#[tactic(auto, unfolding(crate::specs::private::Stretch::glided))]
fn glided(effect: Effect, n: u64, p: CounterParts) -> CounterParts
    requires { p.ce < modulus p.bits }
    ensures { result ≡ glided effect n p }
{
    CounterParts {
        ce: glided_count(p.bits, p.ce, step_of(effect), n),
        ..p
    }
}

/// Some pulses that were taken.
#[derive(Clone, Copy)]
struct Leap {
    /// The counter after them.
    parts: CounterParts,
    /// How many they are.
    pulses: u64,
    /// The rises of OUT among them.
    rises: Rises,
}

/// Whether two flags are the same.
fn same(a: bool, b: bool) -> bool
    ensures { result ≡ (if a then b else not b) }
{
    if a { b } else { !b }
}

/// Takes as many of the next `n` pulses as go at once: all of them where the counter counts in periods.
fn next_leap(p: CounterParts, n: u64) -> Leap
    requires some { 0 < n }
    requires valid { IsCounter p }
    ensures { IsLeap n p result }
{
    let mut parts = p;
    if is_halving(&p) {
        let rises = take_square(&mut parts, n);
        return Leap {
            parts,
            pulses: n,
            rises,
        };
    }
    if is_dividing(&p) {
        let rises = divide(&mut parts, meant_count(p.bits, p.cr), n);
        return Leap {
            parts,
            pulses: n,
            rises,
        };
    }
    let effect = next_effect(&p);
    let quiet = quiet_for(effect, &p).min(n);
    if quiet > 0 {
        return Leap {
            parts: glided(effect, quiet, p),
            pulses: quiet,
            rises: NONE,
        };
    }
    let parts = affected(effect, p);
    let rose = has_risen(&p, &parts);
    Leap {
        parts,
        pulses: 1,
        rises: with_pulse(NONE, 0, rose),
    }
}

/// Takes `n` pulses, leap by leap.
#[cold]
#[inline(never)]
fn leaps(p: &mut CounterParts, n: u64) -> Rises
    requires { IsCounter p.old }
    ensures { HasTaken n p.old p.new result }
{
    let mut parts = *p;
    let mut pulses = 0;
    let mut rises = NONE;
    while pulses < n {
        let next = next_leap(parts, n - pulses);
        rises = joined(rises, pulses, next.rises);
        parts = next.parts;
        pulses += next.pulses;
    }
    *p = parts;
    rises
}

/// Takes `n` pulses.
pub fn take_pulses(p: &mut CounterParts, n: u64) -> Rises
    requires { IsCounter p.old }
    ensures { HasTaken n p.old p.new result }
{
    if is_halving(p) {
        return take_square(p, n);
    }
    leaps(p, n)
}
