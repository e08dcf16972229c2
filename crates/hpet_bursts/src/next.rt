//! When a message is sent next.
ghost use Rattle.std.specs.Prelude.{◌≡◌, ◌-◌, ◌^◌, ◌<◌, ◌≤◌};
ghost use Rattle.hpet_bursts.specs.Next.{next_message};
ghost use Rattle.hpet_bursts.specs.private.Earlier.{first_of, earlier};

use crate::burst::burst_of;
use clk_units::pulses_between;
use hpet_comparator::Matches;
use hpet_registers::{HPET_HZ, Hpet};
use irq_edges::Burst;

/// The first nanosecond after `from` and up to `to` in which a timer of `h` sends a message, while
/// nobody writes a register.
pub fn next_message(h: &Hpet, from: u64, to: u64) -> Option<u64>
    requires order { from ≤ to }
    requires range { to < 2 ^ 59 }
    ensures { result ≡ next_message from (to - from) h.now }
{
    let mut pulsed = *h;
    let mut matches = [Matches::NONE; 8];
    let _reach = pulsed.pulses(pulses_between(from, to, HPET_HZ), &mut matches);
    let mut next = None;
    for k in 0..8u8 {
        let burst = burst_of(h, k, matches[k as usize], from, to);
        next = earlier(next, first_of(burst));
    }
    next
}

/// When the first message of a burst is sent.
fn first_of(burst: Option<Burst>) -> Option<u64>
    ensures { result ≡ first_of burst }
{
    match burst {
        Some(burst) => Some(burst.first),
        None => None,
    }
}

/// The earlier of two times.
#[tactic(auto, unfolding(crate::specs::private::Earlier::earlier))]
fn earlier(a: Option<u64>, b: Option<u64>) -> Option<u64>
    ensures { result ≡ earlier a b }
{
    match a {
        None => b,
        Some(x) => match b {
            None => Some(x),
            Some(y) => if x <= y { Some(x) } else { Some(y) },
        },
    }
}
