//! Many pulses at once.

ghost use Rattle.std.specs.Prelude.{◌≡◌, ℕ, suc, ◌+◌, ◌/◌, ◌<◌, ◌≤◌, ◌↔◌, IsTrue};
ghost use Rattle.clk_units.specs.Events.{IsFirst};
ghost use Rattle.hpet_comparator.specs.Counter.{counter_after};
ghost use Rattle.hpet_comparator.specs.Parts.{IsTimer};
ghost use Rattle.hpet_comparator.specs.Stretch.{
  matches_at,
  pulsed_times,
  matches_in,
  spacing_of,
  pulses_before,
  falls_on,
};
ghost use Rattle.hpet_comparator.specs.private.Rounds.{advanced};

use crate::parts::{MODULUS_32, TimerParts, within};

/// How many values a counter of 64 bits has.
const MODULUS_64: u128 = 0x1_0000_0000_0000_0000;

/// The matches of a stretch of pulses.
#[derive(Clone, Copy, Debug, PartialEq, Eq)]
pub struct Matches {
    /// How many there are.
    pub count: u64,
    /// The pulse of the first of them, counted from 1, where there is one.
    pub first: Option<u64>,
}

impl Matches {
    /// No matches.
    pub const NONE: Matches = Matches {
        count: 0,
        first: None,
    };
}

impl TimerParts {
    /// The pulses from one match to the next: the period, or 2^32 or 2^64 by the timer's width
    /// where it is one-shot or the period is 0.
    pub fn spacing(&self) -> u128
        ensures value { result ≡ spacing_of self.now }
        // A timer that matches on the first pulse does so again on every pulse a spacing later, and
        // on no other.
        ensures every { (from j : ℕ) → IsTimer self.now
            → IsTrue (matches_at (counter_after from 1) self.now)
            → matches_in from self.now (1 + j) ≡ 1 + j / spacing_of self.now }
    {
        if self.is_periodic() && self.period > 0 {
            self.period as u128
        } else if self.is_32_bit() {
            MODULUS_32 as u128
        } else {
            MODULUS_64
        }
    }

    /// How many pulses, from a main counter at `from` on, come before the timer's next match.
    #[inline(always)]
    pub fn pulses_before(&self, from: u64) -> u64
        ensures value { result ≡ pulses_before from self.now }
        ensures quiet { (n : ℕ) → IsTimer self.now → (n ≤ result) ↔ (matches_in from self.now n ≡ 0) }
    {
        within(self, self.comparator.wrapping_sub(from).wrapping_sub(1))
    }
}

/// How many matches come in the `rest` pulses after a match.
#[inline]
fn further_matches(parts: &TimerParts, rest: u64) -> u64
    ensures value { result ≡ rest / spacing_of parts.now }
{
    if parts.is_periodic() && parts.period > 0 {
        rest / parts.period
    } else if parts.is_32_bit() {
        rest / MODULUS_32
    } else {
        0
    }
}

/// The comparator after `matches` matches.
#[inline]
fn advanced_comparator(parts: &TimerParts, matches: u64) -> u64
    ensures value { result ≡ (advanced matches parts.now).comparator }
{
    if parts.is_periodic() {
        within(
            parts,
            parts
                .comparator
                .wrapping_add(matches.wrapping_mul(parts.period)),
        )
    } else {
        parts.comparator
    }
}

/// Counts the `n` pulses that follow the main counter's value `from`.
#[inline]
pub(crate) fn pulse(parts: &mut TimerParts, from: u64, n: u64) -> Matches
    requires valid { IsTimer parts.old }
    ensures state { parts.new ≡ pulsed_times from n parts.old }
    ensures count { result.count ≡ matches_in from parts.old n }
    ensures few { result.count ≤ n }
    ensures first { IsFirst (matches_in from parts.old) n result.first }
    ensures every { (i : ℕ) → i < n
        → matches_at (counter_after from (suc i)) (pulsed_times from i parts.old)
        ≡ falls_on result.first result.count (spacing_of parts.old) (suc i) }
{
    let before = parts.pulses_before(from);
    if n <= before {
        return Matches::NONE;
    }
    let first = before + 1;
    let count = 1 + further_matches(parts, n - first);
    parts.comparator = advanced_comparator(parts, count);
    Matches {
        count,
        first: Some(first),
    }
}
