//! What lies under the lock: the board, and the writer's seat.
ghost use Rattle.std.specs.Prelude.{
  ◌≡◌,
  ◌<◌,
  ◌≤◌,
  ◌^◌,
  true,
  None,
  Some,
  IfOk,
  IfErr,
  OnOk,
  OnErr,
  IsTrue,
};
ghost use Rattle.board_types.specs.Legal.{is_legal};
ghost use Rattle.board_types.specs.Reply.{IsFresh};
ghost use Rattle.board_history.specs.Machine.{machine_of, page_at};
ghost use Rattle.board_history.specs.History.{board_after, version_after, read_of};
ghost use Rattle.clock_table.specs.Steps.{Extends, loud};
ghost use Rattle.clock_table.specs.Calls.{entry_of};
ghost use Rattle.shared_board.specs.Asks.{MayAsk, WasAsked};
ghost use Rattle.shared_board.specs.Passes.{Answered, Unanswered};
ghost use Rattle.shared_board.specs.Reads.{HadRoom};
ghost use Rattle.shared_board.specs.Faults.{IsFull};
ghost use Rattle.shared_board.specs.private.Seats.{
  AreAlike,
  IsApplied,
  IsPenOf,
  IsSpentAt,
  HasActed,
  HasRefused,
};

use crate::lazy::LazyBox;
use crate::pass::Pass;
use crate::pens::{publish, take_pen};
use board_core::{Refusal, Reply};
use board_history::{page_published, read_entry};
use clock_table::{Asked, Call, ClockSeat, ClockTable, Name, SeatPlace};
use pvclock_page::Page;
use std::marker::Model;

/// A front word so great leaves no room for a read under the lock.
const FULL: u64 = 1 << 63;

/// What lies under the lock. The board is the one after all that the writer's seat has seen, but for its greatest
/// reading, which is in the clamp word. It lies in a box, so that no move of what is shared moves it, and its devices may
/// lag there.
#[derive(Drop)]
pub struct Held<N: Name> {
    pub(crate) board: LazyBox,
    pub(crate) writer: SeatPlace<N>,
}

impl<N: Name> Model for Held<N> {
    ghost use Rattle.std.specs.Prelude.{List};
    ghost use Rattle.clock_table.specs.declared.view.View.{View};
    ghost use Rattle.shared_board.specs.private.Seats.{IsHeld};

    ghost Value = { List View };

    ghost view = { λ s. s.writer };

    ghost invariant = { λ s. IsHeld N.state N.passes s.board s.writer };
}

impl<N: Name> Held<N> {
    /// The access, whose entry the pass makes; its reply is put into `reply`, whose list is empty. The pen comes to the
    /// pass, and goes back.
    #[inline(always)]
    pub fn access(
        &mut self,
        table: &ClockTable<N>,
        pass: &mut Pass<N>,
        asked: Asked,
        reply: &mut Reply,
    ) -> Result<(), Refusal>
        requires may { MayAsk N.state asked }
        requires fresh { IsFresh reply.old }
        ensures { WasAsked asked result reply.old reply.new pass.old pass.new }
    {
        take_pen(table, self.writer.take(), &mut pass.seat);
        let call = Call {
            pass: pass.number,
            asked,
        };
        let result = act(table, &mut self.board, &mut pass.seat, call, reply);
        self.writer = SeatPlace::new(table.split_pen(&mut pass.seat));
        result
    }

    /// Reads a page of the table, at count `h`; where the front word, which is then answered, leaves no room, no page
    /// is read.
    pub fn page(
        &mut self,
        table: &ClockTable<N>,
        pass: &mut Pass<N>,
        index: u8,
        h: u64,
    ) -> Result<Page, u64>
        requires index { index ≤ N.state.cpus }
        ensures ok { IfOk result (λ page. Answered pass.old pass.new
            (read_of N.state.cpus pass.old.number index h page true)) }
        ensures least { IfOk result (λ page. version_after pass.old.seen index ≤ page.version) }
        ensures room { IfOk result (λ page. HadRoom
            (read_of N.state.cpus pass.old.number index h page true) pass.new.seen) }
        ensures spent { IfErr result (λ front. Unanswered pass.old pass.new
            × (pass.new.misses ≡ pass.old.misses) × IsFull front pass.new.seen) }
    {
        let front = take_pen(table, self.writer.take(), &mut pass.seat);
        let look = Look {
            pass: pass.number,
            index,
            h,
        };
        let result = read(table, &self.board, &mut pass.seat, look, front);
        self.writer = SeatPlace::new(table.split_pen(&mut pass.seat));
        result
    }
}

/// A read of a page of the table, as a pass asks for it.
#[derive(Clone, Copy)]
struct Look {
    pass: u64,
    index: u8,
    h: u64,
}

/// A read of a page, whose entry the seat makes that holds the pen.
fn read<N: Name>(
    table: &ClockTable<N>,
    board: &LazyBox,
    seat: &mut ClockSeat<N>,
    look: Look,
    front: u64,
) -> Result<Page, u64>
    requires machine { machine_of board.now ≡ machine_of N.state }
    requires index { look.index ≤ N.state.cpus }
    requires pen { IsPenOf look.pass seat.old }
    requires alike { AreAlike board.now (board_after seat.old.seen) }
    requires front { front ≡ loud seat.old.seen }
    ensures ok { IfOk result (λ page. Extends
        (read_of N.state.cpus look.pass look.index look.h page true) seat.old seat.new) }
    ensures page { IfOk result (λ page. page_at (board_after seat.old.seen) look.index ≡ page) }
    ensures room { OnOk result (loud seat.old.seen < 2 ^ 63) }
    ensures spent { IfErr result (λ f. IsSpentAt f seat.old seat.new) }
{
    if front >= FULL {
        return Err(front);
    }
    let page = board.table_page(look.index);
    let entry = read_entry(board.cpus(), look.pass, look.index, look.h, &page, true);
    table.bump_read(seat, &entry);
    Ok(page)
}

/// The access on the board, whose entry the seat makes that holds the pen. The reply is written in its place, since
/// each move of it would copy the whole list.
#[inline(always)]
pub(crate) fn act<N: Name>(
    table: &ClockTable<N>,
    board: &mut LazyBox,
    seat: &mut ClockSeat<N>,
    call: Call,
    reply: &mut Reply,
) -> Result<(), Refusal>
    requires machine { machine_of board.old ≡ machine_of N.state }
    requires cpu { call.asked.cpu < N.state.cpus }
    requires legal { IsTrue (is_legal N.state.cpus N.state.format call.asked.access) }
    requires pen { IsPenOf call.pass seat.old }
    requires alike { AreAlike board.old (board_after seat.old.seen) }
    requires fresh { IsFresh reply.old }
    ensures ok { OnOk result (HasActed call reply.new board.new seat.old seat.new) }
    ensures err { IfErr result (λ f. HasRefused call.asked f board.old board.new seat.old seat.new) }
    ensures machine { machine_of board.new ≡ machine_of board.old }
    ensures unchanged { OnErr result (reply.new ≡ reply.old) }
{
    match board.answer(call.asked, reply) {
        Ok(()) => {
            make(table, board, seat, call, reply);
            Ok(())
        }
        Err(refusal) => Err(refusal),
    }
}

/// Makes the entry of an access that the board has just taken.
#[inline(always)]
fn make<N: Name>(
    table: &ClockTable<N>,
    board: &LazyBox,
    seat: &mut ClockSeat<N>,
    call: Call,
    reply: &Reply,
)
    requires machine { machine_of board.now ≡ machine_of N.state }
    requires cpu { call.asked.cpu < N.state.cpus }
    requires pen { IsPenOf call.pass seat.old }
    requires applied { IsApplied board.now (board_after seat.old.seen) call.asked reply.now }
    ensures { Extends (entry_of call reply.now) seat.old seat.new }
{
    match page_published(board.cpus(), call.asked.cpu, call.asked.access) {
        None => table.enter(seat, &call, reply),
        Some(index) => publish(table, board, seat, index, &call, reply),
    }
}
