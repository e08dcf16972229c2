//! A caller's pass.
ghost use Rattle.std.specs.Prelude.{◌≡◌, ◌≤◌, ℕ, [], None, Some};
ghost use Rattle.board_history.specs.History.{entries_of, IsLegal};

use crate::known::PassKnown;
use clock_table::{ClockSeat, Name};
use std::marker::Model;

/// A caller's pass, with which one thread at a time calls the board. What it has seen of the board's history is known
/// to the proofs alone; it takes eight bytes.
#[derive(Drop)]
pub struct Pass<N: Name> {
    pub(crate) number: u64,
    pub(crate) seat: ClockSeat<N>,
}

impl<N: Name> Model for Pass<N> {
    ghost use Rattle.shared_board.specs.declared.known.PassKnown.{PassKnown};
    ghost use Rattle.shared_board.specs.private.Seats.{known, IsAtRest, IsBelow};

    ghost Value = { PassKnown };

    ghost view = { λ p. known p.number p.seat };

    ghost invariant = { λ p. IsAtRest p.number p.seat × IsBelow N.passes p.seat };
}

impl<N: Name> Pass<N> {
    /// The number of the pass, from 0. A caller learns here that what any pass has seen is legal, and that each entry
    /// of it but the first was made by one of the board's passes.
    pub fn number(&self) -> u64
        ensures number { result ≡ self.now.number }
        ensures legal { IsLegal self.now.seen }
        ensures below { (k : ℕ) → N.passes ≤ k → entries_of k self.now.seen ≡ [] }
    {
        self.number
    }

    /// The seat of a pass that is given up, for a reader that loads the words of a page itself, one by one. The board then
    /// never stops, since that asks for all its passes.
    pub fn into_seat(self) -> ClockSeat<N>
        ensures number { result.number ≡ Some self.number }
        ensures meet { result.meet ≡ None }
        ensures seen { result.seen ≡ self.seen }
    {
        let Pass { number: _, seat } = self;
        seat
    }
}
