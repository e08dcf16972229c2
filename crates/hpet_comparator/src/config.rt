//! The configuration register.

ghost use Rattle.std.specs.Prelude.{◌≡◌};
ghost use Rattle.hpet_comparator.specs.Config.{chosen_route, narrowed, config_written};

use crate::parts::{ROUTE_UNIT, ROUTES, TimerParts, within};

/// The writable bits that aren't the route: 1, 2, 3, 6 and 8.
const SWITCHES: u64 = 0x14e;

/// The route that a write of the route `new` leaves.
fn choose_route(new: u64, old: u64) -> u64
    ensures { result ≡ chosen_route new old }
{
    if 20 <= new && new <= 23 { new } else { old }
}

/// The timer with comparator and period cut to its width.
fn narrow(parts: TimerParts) -> TimerParts
    ensures { result ≡ narrowed parts }
{
    TimerParts {
        comparator: within(&parts, parts.comparator),
        period: within(&parts, parts.period),
        config: parts.config,
    }
}

/// The timer after a write of `v` to its configuration register.
#[tactic(auto, unfolding(crate::specs::Config::config_written))]
pub(crate) fn config_written(parts: TimerParts, v: u64) -> TimerParts
    ensures { result ≡ config_written v parts }
{
    let route = choose_route(v / ROUTE_UNIT % ROUTES, parts.route() as u64);
    narrow(TimerParts {
        config: ((v & SWITCHES) + route * ROUTE_UNIT) as u16,
        comparator: parts.comparator,
        period: parts.period,
    })
}
