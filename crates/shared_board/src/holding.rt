//! The lock of a shared board, held for several accesses.
ghost use Rattle.board_types.specs.Reply.{IsFresh};
ghost use Rattle.shared_board.specs.Asks.{MayAsk, WasAsked};

use crate::held::Held;
use crate::pass::Pass;
use board_core::{Refusal, Reply};
use board_io::Gate;
use clock_table::{Asked, ClockTable, Name};
use crossbeam_utils::CachePadded;
use std::sync::{MutexGuard, Wait};

/// The lock of a shared board, which is given back where this is dropped. Other threads' accesses wait meanwhile; reads
/// of pages without the lock don't.
#[derive(Drop)]
pub struct Holding<'b, N: Name> {
    pub(crate) table: &'b ClockTable<N>,
    pub(crate) held: MutexGuard<'b, CachePadded<Held<N>>>,
}

impl<'b, N: Name> Holding<'b, N> {
    /// An access, as [`SharedBoard::answer`](crate::SharedBoard::answer) makes it. The gate is called once, before
    /// anything else is done.
    #[inline(always)]
    pub fn answer<R: Wait, G: Gate>(
        &mut self,
        rt: &R,
        gate: &G,
        pass: &mut Pass<N>,
        asked: Asked,
        reply: &mut Reply,
    ) -> Result<(), Refusal>
        requires may { MayAsk N.state asked }
        requires fresh { IsFresh reply.old }
        ensures { WasAsked asked result reply.old reply.new pass.old pass.new }
    {
        gate.inside(rt, asked.cpu);
        self.held.access(self.table, pass, asked, reply)
    }
}
