//! The pen: how it comes from one seat to another, and what its holder does with it.
ghost use Rattle.std.specs.Prelude.{◌≡◌, ◌<◌, ◌≤◌, ◌++◌, [], ◌∷◌, false, None};
ghost use Rattle.board_types.specs.declared.parts.TheConstants.{LAST_VERSION};
ghost use Rattle.board_history.specs.Machine.{page_at};
ghost use Rattle.board_history.specs.History.{board_after, version_after};
ghost use Rattle.clock_table.specs.Steps.{Extends, loud};
ghost use Rattle.clock_table.specs.Calls.{IsPen, IsNext, IsPublishing, entry_of};
ghost use Rattle.shared_board.specs.private.Seats.{IsWriter, PenMoved};

use crate::lazy::LazyBox;
use board_core::Reply;
use clock_table::{Call, ClockSeat, ClockTable, Field, Name};
use pvclock_page::page_words;

/// A pass takes the pen: its seat takes in the writer's, and has then seen all accesses and locked reads. It answers the
/// front word.
pub(crate) fn take_pen<N: Name>(
    table: &ClockTable<N>,
    writer: ClockSeat<N>,
    seat: &mut ClockSeat<N>,
) -> u64
    requires writer { IsWriter N.passes writer }
    requires seat { (seat.old.pen ≡ false) × (seat.old.meet ≡ None) × (seat.old.hand ≡ None) }
    ensures moved { PenMoved writer seat.old seat.new }
    ensures front { result ≡ loud seat.new.seen }
{
    table.join(seat, writer);
    table.front(seat)
}

/// Publishes a page of the table, and makes the entry of the access that does. It is a function of its own, so that an access
/// that publishes nothing needs no room for a page.
#[inline(never)]
pub(crate) fn publish<N: Name>(
    table: &ClockTable<N>,
    board: &LazyBox,
    seat: &mut ClockSeat<N>,
    index: u8,
    call: &Call,
    reply: &Reply,
)
    requires there { index ≤ board.now.cpus }
    requires index { index ≤ N.state.cpus }
    requires pen { IsPen seat.old }
    requires shut { seat.old.hand ≡ None }
    requires room { version_after seat.old.seen index < LAST_VERSION }
    requires page { page_at (board_after (seat.old.seen ++ entry_of call.now reply.now ∷ [])) index
        ≡ page_at board.now index }
    requires publishes { IsPublishing N.state.cpus index (entry_of call.now reply.now) }
    requires next { IsNext (entry_of call.now reply.now) seat.old }
    ensures { Extends (entry_of call.now reply.now) seat.old seat.new }
{
    let [_, stamp, system, scale, offset] = page_words(&board.table_page(index));
    table.begin(seat, index);
    table.put(seat, index, Field::Stamp, stamp);
    table.put(seat, index, Field::System, system);
    table.put(seat, index, Field::Scale, scale);
    table.put(seat, index, Field::Offset, offset);
    table.finish(seat, index, call, reply);
}
