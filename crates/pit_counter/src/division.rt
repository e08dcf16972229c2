//! Mode 2 while it counts: many pulses at once, by its period.

ghost use Rattle.std.specs.Prelude.{◌≡◌, ◌<◌, ◌≤◌, true, false};
ghost use Rattle.pit_counter.specs.Mode.{is_bcd};
ghost use Rattle.pit_counter.specs.Count.{modulus, meant_count};
ghost use Rattle.pit_counter.specs.Parts.{IsCounter};
ghost use Rattle.pit_counter.specs.Table.{pulsed_times};
ghost use Rattle.pit_counter.specs.private.Stretch.{height, is_dividing, is_rate_running, DividesBy, with_left};
ghost use Rattle.pit_counter.specs.private.Taken.{HasTaken};

use crate::count::count_left;
use crate::mode::mode_of;
use crate::parts::CounterParts;
use crate::rises::{NONE, Rises};
use crate::stretch::height;

/// Mode 2 counts with GATE high, on to the load after a count of 1.
#[tactic(auto, unfolding(crate::specs::private::Stretch::is_dividing))]
pub fn is_dividing(p: &CounterParts) -> bool
    ensures { result ≡ is_dividing p.now }
{
    mode_of(p.bits).is_rate() && p.gate && p.live && !p.trig && p.ce != 1
}

/// How far a binary count is above 0: the whole way round where it is 0.
#[inline(always)]
#[tactic(auto, unfolding(crate::specs::private::Stretch::height, crate::specs::Count::modulus))]
fn binary_height(p: &CounterParts) -> u64
    requires { is_bcd p.now.bits ≡ false }
    ensures { result ≡ height p.now }
{
    if p.ce == 0 { 65_536 } else { p.ce as u64 }
}

/// The binary count of a counter that divides after `n` pulses: what is left then of a period, be it
/// the present one or a later one.
#[inline(always)]
pub fn divided_count(p: &CounterParts, period: u32, n: u64) -> u16
    requires below { p.now.ce < modulus p.now.bits }
    requires binary { is_bcd p.now.bits ≡ false }
    requires divides { DividesBy period p.now }
    ensures { result ≡ (pulsed_times n p.now).ce }
{
    let left = binary_height(p);
    if n < left {
        return ((left - n) % 65_536) as u16;
    }
    let period = period as u64;
    ((period - (n - left) % period) % 65_536) as u16
}

/// Sets a counter that divides to so many pulses before its next load.
#[inline(always)]
fn set_left(p: &mut CounterParts, left: u64)
    requires within { left ≤ modulus p.old.bits }
    ensures { p.new ≡ with_left left p.old }
{
    p.ce = count_left(p.bits, left);
    p.out = left != 1;
}

/// Takes `n` pulses of a counter that divides.
#[inline(always)]
pub fn divide(p: &mut CounterParts, period: u32, n: u64) -> Rises
    requires valid { IsCounter p.old }
    requires divides { DividesBy period p.old }
    ensures taken { HasTaken n p.old p.new result }
    ensures runs { is_rate_running p.new ≡ true }
    ensures period { period ≡ meant_count p.new.bits p.new.cr }
{
    let left = height(p);
    if n < left {
        set_left(p, left - n);
        return NONE;
    }
    let period = period as u64;
    let later = n - left;
    p.null = false;
    set_left(p, period - later % period);
    Rises {
        count: 1 + later / period,
        first: Some(left),
    }
}
