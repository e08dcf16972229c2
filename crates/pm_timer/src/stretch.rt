//! Many pulses at once: the fields after them, and when line 9 rises.

ghost use Rattle.std.specs.Prelude.{◌≡◌, ◌<◌};
ghost use Rattle.pm_timer.specs.Parts.{IsPmTimer};
ghost use Rattle.pm_timer.specs.Stretch.{first_within};
ghost use Rattle.pm_timer.specs.private.Stretch.{half_of, to_change, pm_stretched, rise_of};

use crate::parts::PmParts;

/// The pulses from one change of the count's most significant bit to the next.
#[tactic(auto, using(std::proofs::lemmas::Nat::one_shl))]
fn half_of(p: PmParts) -> u64
    requires timer { IsPmTimer p }
    requires there { 0 < p.bits }
    ensures { result ≡ half_of p }
{
    1 << (p.bits - 1)
}

/// The pulses up to the next such change.
fn pulses_to_change(p: PmParts) -> u64
    requires timer { IsPmTimer p }
    requires there { 0 < p.bits }
    ensures value { result ≡ to_change p }
{
    let half = half_of(p);
    half - p.count as u64 % half
}

/// The fields after `n` pulses.
pub(crate) fn after_pulses(p: PmParts, n: u64) -> PmParts
    requires { IsPmTimer p }
    ensures { result ≡ pm_stretched n p }
{
    if p.bits == 0 {
        return p;
    }
    let values = half_of(p) * 2;
    PmParts {
        count: ((p.count as u64 + n % values) % values) as u32,
        status: p.status || n >= pulses_to_change(p),
        ..p
    }
}

/// The pulse at which line 9 rises, counted from 1, if one does.
pub(crate) fn first_rise(p: PmParts) -> Option<u64>
    requires { IsPmTimer p }
    ensures { result ≡ rise_of p }
{
    if p.enable && !p.status {
        Some(pulses_to_change(p))
    } else {
        None
    }
}

/// A first pulse as the first of `n` pulses: none where it comes later.
pub(crate) fn first_within(n: u64, first: Option<u64>) -> Option<u64>
    ensures { result ≡ first_within n first }
{
    match first {
        Some(k) if k <= n => Some(k),
        _ => None,
    }
}
