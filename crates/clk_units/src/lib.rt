//! Pulses of a clock of fixed rate, on a time line of whole nanoseconds, and what all the crates above share:
//! bits by their place, the range of times and of rates, and the time of a first event.
//!
//! A clock of `hz` pulses a second has seen `floor(ns * hz / 10^9)` pulses at nanosecond `ns`, and a pulse
//! falls at each nanosecond at which that number rises. So the first pulse of the 8254's 1,193,182 Hz falls
//! at 839 ns:
//!
//! ```text
//! pulses_of(838, 1_193_182) == 0
//! pulses_of(839, 1_193_182) == 1
//! time_of_pulse(1, 1_193_182) == 839
//! ```
#![tactic(auto)]

ghost use Rattle.std.specs.Prelude.{◌≡◌, ◌+◌, ◌-◌, ◌^◌, ◌<◌, ◌≤◌, IfSome};
ghost use Rattle.clk_units.specs.Pulses.{pulses_by, falls_up_to, pulses_from, time_of, IsTimeOf};
ghost use Rattle.clk_units.specs.Events.{first_at};

mod bits;
mod ranges;

pub use bits::{bit, bit_value};
pub use ranges::{KHZ_MAX, KHZ_MIN, RANGE_NS, is_khz};

/// Memory ran out.
#[derive(Clone, Copy, Debug, PartialEq, Eq)]
pub struct NoMemory;

/// Nanoseconds in a second.
const SECOND_NS: u64 = 1_000_000_000;

/// How many pulses a clock of `hz` pulses a second has seen at nanosecond `ns`: how many fall at the
/// nanoseconds 1 to `ns`. Whole seconds and the rest are counted apart, so that 64 bits are enough.
pub fn pulses_of(ns: u64, hz: u64) -> u64
    requires in_range { ns < RANGE_NS }
    requires slow { hz ≤ 1000000000 }
    ensures value { result ≡ pulses_by hz ns }
    ensures counted { result ≡ falls_up_to hz ns }
    ensures few { result ≤ ns }
{
    ns / SECOND_NS * hz + ns % SECOND_NS * hz / SECOND_NS
}

/// The nanosecond at which pulse `n` falls, pulses being counted from 1: the least nanosecond up to which
/// `n` of them fall. It is 0 for `n` 0.
pub fn time_of_pulse(n: u64, hz: u64) -> u64
    requires runs { 0 < hz }
    requires slow { hz ≤ 1000000000 }
    requires fits { time_of hz n < 2 ^ 64 }
    ensures value { result ≡ time_of hz n }
    ensures time { IsTimeOf hz n result }
{
    n / hz * SECOND_NS + (n % hz * SECOND_NS).div_ceil(hz)
}

/// How many pulses fall after nanosecond `from` and up to nanosecond `to`.
pub fn pulses_between(from: u64, to: u64, hz: u64) -> u64
    requires forward { from ≤ to }
    requires in_range { to < RANGE_NS }
    requires slow { hz ≤ 1000000000 }
    ensures value { result ≡ pulses_from hz from (to - from) }
    ensures joins { result + pulses_by hz from ≡ pulses_by hz to }
    ensures few { result ≤ to - from }
{
    pulses_of(to, hz) - pulses_of(from, hz)
}

/// The nanosecond of the first event after nanosecond `from` and up to `to`, of a device that pulses `hz` times
/// a second. `first` is the pulse after `from` that brings it, counted from 1, or none does.
#[tactic(auto, using(crate::proofs::Pulses::comes_by, crate::proofs::Pulses::joined_fits))]
pub fn first_at(first: Option<u64>, hz: u64, from: u64, to: u64) -> Option<u64>
    requires runs { 0 < hz }
    requires slow { hz ≤ 1000000000 }
    requires forward { from ≤ to }
    requires in_range { to < RANGE_NS }
    requires inside { IfSome first (λ k. k ≤ pulses_from hz from (to - from)) }
    ensures value { result ≡ first_at hz from first }
    ensures by_end { IfSome result (λ at. at ≤ to) }
{
    match first {
        Some(k) => Some(time_of_pulse(pulses_of(from, hz) + k, hz)),
        None => None,
    }
}
