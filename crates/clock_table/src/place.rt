//! A place for a seat.
ghost use Rattle.std.specs.Prelude.{◌≡◌, [], ◌∷◌};
ghost use Rattle.clock_table.specs.declared.view.View.{View};

use crate::name::Name;
use crate::table::ClockSeat;
use crate::view::View;
use atomic_table::Badge;
use std::marker::{Model, PhantomData};
use std::mem::replace;

/// A place for a seat, which has one or none. It takes no bytes. Contracts see it as the views of the seats there.
#[derive(Drop)]
pub struct SeatPlace<N: Name> {
    badge: Badge<View>,
    of: PhantomData<N>,
}

impl<N: Name> Model for SeatPlace<N> {
    ghost use Rattle.std.specs.Prelude.{◌≡◌, List, [], ◌∷◌, true, Some};
    ghost use Rattle.clock_table.specs.declared.view.View.{View};

    ghost Value = { List View };

    ghost view = { λ p. p.badge.views };

    ghost invariant = { λ p. (v : View) → p.badge.views ≡ v ∷ [] → (p.badge.table_id ≡ N.table)
        × (v.live ≡ true) × (v.limit ≡ Some N.passes) };
}

impl<N: Name> SeatPlace<N> {
    /// A place that has this seat.
    pub fn new(seat: ClockSeat<N>) -> SeatPlace<N>
        ensures { result ≡ seat ∷ [] }
    {
        let ClockSeat { seat, of: _ } = seat;
        SeatPlace {
            badge: seat.into_badge(),
            of: PhantomData,
        }
    }

    /// Takes out the seat that is there.
    pub fn take(&mut self) -> ClockSeat<N>
        requires { (v : View) × (self.old ≡ v ∷ []) }
        ensures seat { self.old ≡ result ∷ [] }
        ensures none { self.new ≡ [] }
    {
        let badge = replace(&mut self.badge, Badge::blank());
        ClockSeat {
            seat: badge.into_seat(),
            of: PhantomData,
        }
    }
}
