//! Mode 3 while it counts: many pulses at once, by the halves of its period.

ghost use Rattle.std.specs.Prelude.{◌≡◌, ◌<◌, ◌≤◌, true};
ghost use Rattle.pit_counter.specs.Count.{modulus, meant_count};
ghost use Rattle.pit_counter.specs.Parts.{IsCounter};
ghost use Rattle.pit_counter.specs.Table.{affected, pulsed_times};
ghost use Rattle.pit_counter.specs.private.Stretch.{is_halving, half_left, to_rise};
ghost use Rattle.pit_counter.specs.private.Taken.{HasTaken};
ghost use Rattle.pit_counter.specs.declared.table.Effect.TheVariants.{Load};

use crate::count::{count_left, meant_count};
use crate::mode::mode_of;
use crate::parts::CounterParts;
use crate::rises::{NONE, Rises};
use crate::stretch::height;

/// Mode 3 counts with GATE high.
#[tactic(auto, unfolding(crate::specs::private::Stretch::is_halving))]
#[inline(always)]
pub fn is_halving(p: &CounterParts) -> bool
    ensures { result ≡ is_halving p.now }
{
    mode_of(p.bits).is_square() && p.gate && p.live && !p.trig
}

/// How many pulses are left then of the present half.
#[inline(always)]
#[tactic(auto, unfolding(crate::specs::private::Stretch::half_left), using(crate::proofs::Square::toggle))]
fn half_left(p: &CounterParts) -> u64
    ensures value { result ≡ half_left p.now }
    ensures greatest { result ≤ 32768 }
{
    if p.out && p.odd {
        p.ce as u64 / 2 + 1
    } else {
        height(p) / 2
    }
}

/// How many pulses are left to the next rise, by those that are left of the present half.
#[inline(always)]
#[tactic(auto, unfolding(crate::specs::private::Stretch::to_rise))]
fn to_rise(p: &CounterParts, left: u64, period: u64) -> u64
    requires left { left ≡ half_left p.now }
    requires period { period ≡ meant_count p.now.bits p.now.cr }
    requires few { left ≤ 32768 }
    requires short { period ≤ 65536 }
    ensures { result ≡ to_rise p.now }
{
    if p.out { left + period / 2 } else { left }
}

/// Sets the counter to this place of a period after a load.
#[inline(always)]
fn set_place(p: &mut CounterParts, period: u64, place: u64)
    requires valid { IsCounter p.old }
    requires counts { is_halving p.old ≡ true }
    requires period { period ≡ meant_count p.old.bits p.old.cr }
    requires short { period ≤ modulus p.old.bits }
    requires within { place < period }
    ensures { p.new ≡ pulsed_times place (affected (Load true) p.old) }
{
    let low = period / 2;
    p.null = false;
    p.odd = period % 2 == 1;
    if place < period - low {
        p.ce = count_left(p.bits, 2 * (low - place));
        p.out = true;
    } else {
        p.ce = count_left(p.bits, 2 * (period - place));
        p.out = false;
    }
}

/// Takes `n` pulses of a counter that makes a square wave.
#[cold]
#[inline(never)]
pub fn take_square(p: &mut CounterParts, n: u64) -> Rises
    requires valid { IsCounter p.old }
    requires counts { is_halving p.old ≡ true }
    ensures { HasTaken n p.old p.new result }
{
    let left = half_left(p);
    if n < left {
        p.ce = count_left(p.bits, height(p) - 2 * n);
        return NONE;
    }
    let period = meant_count(p.bits, p.cr) as u64;
    let first = to_rise(p, left, period);
    if n < first {
        set_place(p, period, period - (first - n));
        return NONE;
    }
    let later = n - first;
    set_place(p, period, later % period);
    Rises {
        count: 1 + later / period,
        first: Some(first),
    }
}
