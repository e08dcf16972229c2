//! The passes of a new board, and how they end.
ghost use Rattle.std.specs.Prelude.{◌≡◌, ◌++◌, [], ◌∷◌, IfOk, List, true, None};
ghost use Rattle.board_history.specs.declared.entry.Entry.{Entry};
ghost use Rattle.board_history.specs.declared.entry.Entry.TheVariants.{Opened};
ghost use Rattle.clock_table.specs.Steps.{named, first_view};
ghost use Rattle.shared_board.specs.declared.known.PassKnown.{PassKnown};
ghost use Rattle.shared_board.specs.Stops.{newcomers};
ghost use Rattle.shared_board.specs.private.Seats.{IsWriter, IsBelow, IsJoining};

use crate::pass::Pass;
use clock_table::{ClockSeat, ClockTable, Name};
use std::alloc::{AllocError, Global};

/// A pass ends, and its seat is joined.
pub(crate) fn join_one<N: Name>(table: &ClockTable<N>, seat: &mut ClockSeat<N>, pass: Pass<N>)
    requires { (seat.old.pen ≡ true) × (seat.old.hand ≡ None) × (seat.old.meet ≡ None) }
    ensures { (ps : List PassKnown) (first : List Entry) → IsJoining N.passes ps first seat.old →
        IsJoining N.passes (ps ++ pass ∷ []) first seat.new }
{
    let Pass {
        number: _,
        seat: gone,
    } = pass;
    table.join(seat, gone);
    table.front(seat);
}

/// All passes end.
pub(crate) fn join_all<N: Name>(
    table: &ClockTable<N>,
    mut seat: ClockSeat<N>,
    passes: Vec<Pass<N>>,
) -> ClockSeat<N>
    requires { IsWriter N.passes seat }
    ensures { IsJoining N.passes passes.items seat.seen result }
{
    for pass in passes {
        join_one(table, &mut seat, pass);
    }
    seat
}

/// Splits off the passes of a new table.
pub(crate) fn new_passes<N: Name>(
    alloc: Global,
    table: &ClockTable<N>,
    seat: &mut ClockSeat<N>,
    passes: u8,
) -> Result<Vec<Pass<N>>, AllocError>
    requires passes { passes ≡ N.passes }
    requires first { seat.old ≡ named N.passes (first_view N.state) }
    ensures list { IfOk result (λ v. v.items ≡ newcomers N.state N.passes) }
    ensures seat { IfOk result (λ v. IsWriter N.passes seat.new
        × (seat.new.seen ≡ Opened N.state ∷ []) × IsBelow N.passes seat.new) }
{
    let mut list = Vec::with_capacity(alloc, passes as usize)?;
    let mut number = 0;
    while number < passes {
        let seat = table.split_pass(seat);
        list.push(Pass {
            number: number as u64,
            seat,
        })?;
        number += 1;
    }
    Ok(list)
}
