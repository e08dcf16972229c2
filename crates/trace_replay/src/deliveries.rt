//! Who gets interrupts, by the routes of a header.
ghost use Rattle.std.specs.Prelude.{
  ◌≡◌,
  ◌<◌,
  Some,
  None,
  is_some,
  unwrap_or,
};
ghost use Rattle.trace_replay.specs.Deliveries.{
  any_route,
  by_default,
  delivery_at,
  deliveries_of,
};

use edge_hooks::Delivery;
use irq_edges::LINE_NUMBERS;
use trace_blocks::Deliveries;

/// The vector of line 0 where no route says another.
const FIRST_VECTOR: u8 = 0x30;

/// Whether any line has a route.
fn any_route(routes: &[Option<Delivery>; 6]) -> bool
    ensures { result ≡ any_route routes.now }
{
    routes[0].is_some()
        || routes[1].is_some()
        || routes[2].is_some()
        || routes[3].is_some()
        || routes[4].is_some()
        || routes[5].is_some()
}

/// Who gets the rises of the line at a place, where any line has a route.
fn delivery_at(routes: &[Option<Delivery>; 6], place: usize) -> Delivery
    requires { place < 6 }
    ensures { result ≡ delivery_at routes.now place }
{
    let by_default = Delivery {
        cpu: 0,
        vector: FIRST_VECTOR + LINE_NUMBERS[place],
    };
    routes[place].unwrap_or(by_default)
}

/// Who gets the rises of all lines, and the messages, where there are so many processors.
#[tactic(auto, unfolding(crate::specs::Deliveries::deliveries_of))]
pub fn deliveries_of(cpus: u8, routes: &[Option<Delivery>; 6]) -> Deliveries
    ensures { result ≡ deliveries_of cpus routes.now }
{
    if !any_route(routes) {
        return Deliveries {
            cpus,
            lines: [None; 6],
        };
    }
    Deliveries {
        cpus,
        lines: [
            Some(delivery_at(routes, 0)),
            Some(delivery_at(routes, 1)),
            Some(delivery_at(routes, 2)),
            Some(delivery_at(routes, 3)),
            Some(delivery_at(routes, 4)),
            Some(delivery_at(routes, 5)),
        ],
    }
}
