//! The messages of one timer.
ghost use Rattle.std.specs.Prelude.{◌≡◌, ◌-◌, ◌*◌, ◌^◌, ◌<◌, ◌≤◌, if◌then◌else◌, nat_le};
ghost use Rattle.clk_units.specs.Pulses.{pulses_from};
ghost use Rattle.hpet_registers.specs.declared.hpet.TheConstants.{HPET_HZ};
ghost use Rattle.hpet_bursts.specs.Messages.{message_times};
ghost use Rattle.hpet_bursts.specs.Bursts.{burst_in, IsBurst};
ghost use Rattle.hpet_bursts.specs.private.Matches.{AreMatches};

use clk_units::first_at;
use hpet_comparator::Matches;
use hpet_registers::{HPET_HZ, Hpet};
use irq_edges::Burst;

/// Nanoseconds from one pulse of the HPET to the next.
const PULSE_NS: u128 = 10;

/// The messages of timer `k` after nanosecond `from` and up to `to`, where an HPET that was `h`
/// had these matches.
pub(crate) fn burst_of(h: &Hpet, k: u8, matches: Matches, from: u64, to: u64) -> Option<Burst>
    requires place { k < 8 }
    requires order { from ≤ to }
    requires range { to < 2 ^ 59 }
    requires matches { AreMatches k (pulses_from HPET_HZ from (to - from)) h.now matches }
    ensures value { result ≡ burst_in k from (to - from) h.now }
    ensures burst { IsBurst k h.now (message_times k from (to - from) h.now) result }
{
    let message = h.message(k);
    let first = first_at(matches.first, HPET_HZ, from, to);
    match message {
        None => None,
        Some((address, data)) => match first {
            None => None,
            Some(first) => Some(Burst {
                timer: k,
                first,
                count: matches.count,
                every: every_of(matches.count, h.spacing(k)),
                address,
                data,
            }),
        },
    }
}

/// The nanoseconds from one of so many matches to the next; 0 where there is one alone.
fn every_of(count: u64, spacing: u128) -> u64
    requires { 2 ≤ count → spacing * 10 < 2 ^ 64 }
    ensures { result ≡ (if nat_le 2 count then spacing * 10 else 0) }
{
    if count >= 2 {
        (spacing * PULSE_NS) as u64
    } else {
        0
    }
}
