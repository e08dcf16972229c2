//! The board that threads share.
ghost use Rattle.std.specs.Prelude.{◌≡◌, ◌<◌, ◌≤◌, ◌↔◌, false, true, IfOk, IfErr, IsErr, vec_len};
ghost use Rattle.board_types.specs.Reply.{IsFresh};
ghost use Rattle.board_history.specs.Machine.{ratio_in};
ghost use Rattle.board_history.specs.declared.entry.Entry.TheVariants.{Board};
ghost use Rattle.shared_board.specs.Asks.{MayAsk, WasAsked};
ghost use Rattle.shared_board.specs.Passes.{Answered, Refused};
ghost use Rattle.shared_board.specs.Faults.{IsPageFault, IsLockedFault, IsReadFault};
ghost use Rattle.shared_board.specs.Reads.{HasTried, HasRead, MayRead, ReadTold, place_in};
ghost use Rattle.shared_board.specs.Stops.{StopTold, newcomers};
ghost use Rattle.shared_board.specs.private.Seats.{IsLastPage, IsLastRead, HasClamped};
ghost use Rattle.shared_board.specs.private.Tables.{HasReadOnce, HasReadTable, IsAnswered};

use crate::fault::{LockedFault, PageFault};
use crate::held::Held;
use crate::holding::Holding;
use crate::host::HostClock;
use crate::lazy::LazyBox;
use crate::pass::Pass;
use crate::read::{Read, ReadReply};
use crate::stop::{join_all, new_passes};
use crate::tries::try_table_on;
use crate::waiters::Waiters;
use board_core::{BoardState, Refusal, Reply};
use board_history::{answer_by, hv_answer_by};
use board_io::Gate;
use clk_units::NoMemory;
use clock_table::{Asked, Blank, ClockTable, Name, SeatPlace};
use crossbeam_utils::CachePadded;
use hv_page::of_page;
use pvclock_page::{ClockReply, Page, PageReply};
use std::alloc::Global;
use std::hint::spin_loop;
use std::sync::{Mutex, MutexGuard, Wait};
use tsc_scale::ratio;

/// How often a thread looks for a lock that another has, before it sleeps.
const LOOKS: u32 = 5_000;

/// How many pauses of the processor lie between two looks.
const PAUSES: u32 = 4;

// Threads that look for the lock take its cache line from each other. So what is read beside it, and what whoever has it
// works on, lie on lines of their own.
/// A board that threads share: its registers behind one lock, its pages beside it.
#[derive(Drop)]
pub struct SharedBoard<N: Name> {
    table: ClockTable<N>,
    held: CachePadded<Mutex<CachePadded<Held<N>>>>,
    waiters: CachePadded<Waiters>,
    passes: u8,
    /// How many processors the board has: the place of the reference page in the table.
    cpus: u8,
    host: HostClock,
    /// The ratio of the guest's TSC to the host's counter.
    ratio: u64,
    ghost counted: { passes ≡ N.passes },
    ghost placed: { cpus ≡ N.state.cpus },
    ghost clock: { host.anchor ≡ N.state.anchor },
    ghost scaled: { ratio ≡ ratio_in N.state },
}

/// What a board is at its end.
#[derive(Drop)]
pub struct Stopped {
    /// The board after the whole history.
    pub state: Box<BoardState>,
}

/// A board that wasn't stopped, since passes are out. All is handed back.
#[derive(Drop)]
pub struct PassesOut<N: Name> {
    /// How many passes were given, and how many were made.
    pub given: u64,
    pub made: u64,
    pub board: SharedBoard<N>,
    pub passes: Vec<Pass<N>>,
}

impl<N: Name> SharedBoard<N> {
    /// A board that opens with `state`, of which the blank was made, and its passes, numbered from 0. After `NoMemory`
    /// the blank is given up.
    pub fn new(
        alloc: Global,
        blank: Blank,
        state: &BoardState,
        passes: u8,
    ) -> Result<(SharedBoard<N>, Vec<Pass<N>>), NoMemory>
        requires table { blank.0 ≡ N.table }
        requires blank { blank.1 ≡ N.state }
        requires state { state.now ≡ N.state }
        requires passes { passes ≡ N.passes }
        ensures { IfOk result (λ t. t.1.items ≡ newcomers N.state N.passes) }
    {
        let (table, mut seat) = ClockTable::<N>::new(blank);
        let list = match new_passes(alloc, &table, &mut seat, passes) {
            Ok(list) => list,
            Err(_full) => return Err(NoMemory),
        };
        let anchor = state.anchor();
        let board = SharedBoard {
            table,
            held: CachePadded::new(Mutex::new(CachePadded::new(Held {
                board: LazyBox::new(alloc, state)?,
                writer: SeatPlace::new(seat),
            }))),
            waiters: CachePadded::new(Waiters::new()),
            passes,
            cpus: state.cpus(),
            host: HostClock::new(anchor),
            ratio: ratio(state.guest_khz(), anchor.khz),
        };
        Ok((board, list))
    }

    /// The words of the board's pages, for a reader that loads them itself, one by one, with a seat of its own
    /// ([`Pass::into_seat`]).
    pub fn table(&self) -> &ClockTable<N> {
        &self.table
    }

    // Inlined, so that the list is moved once, to its place at the caller.
    /// An access, under the lock. The gate is called once, when the lock is held.
    #[inline(always)]
    pub fn access<R: Wait, G: Gate>(
        &self,
        rt: &R,
        gate: &G,
        pass: &mut Pass<N>,
        asked: Asked,
    ) -> Result<Reply, Refusal>
        requires { MayAsk N.state asked }
        ensures ok { IfOk result (λ r. Answered pass.old pass.new
            (Board pass.old.number asked.cpu asked.h asked.access r)) }
        ensures err { IfErr result
            (λ f. Refused asked.cpu asked.h asked.access f pass.old pass.new) }
    {
        let mut reply = Reply::empty();
        match self.answer(rt, gate, pass, asked, &mut reply) {
            Ok(()) => Ok(reply),
            Err(refusal) => Err(refusal),
        }
    }

    /// The same, for a caller that keeps the reply: it is put in its place, where the list of edges is empty. It moves
    /// no list, so it is the faster of the two. Its code goes into each caller, with that of the board's own access: no
    /// refusal goes through memory, and one that makes one kind of access alone asks for no kind.
    #[inline(always)]
    pub fn answer<R: Wait, G: Gate>(
        &self,
        rt: &R,
        gate: &G,
        pass: &mut Pass<N>,
        asked: Asked,
        reply: &mut Reply,
    ) -> Result<(), Refusal>
        requires may { MayAsk N.state asked }
        requires fresh { IsFresh reply.old }
        ensures { WasAsked asked result reply.old reply.new pass.old pass.new }
    {
        self.hold(rt).answer(rt, gate, pass, asked, reply)
    }

    /// Takes the lock for several accesses. It is given back where what is answered here is dropped.
    #[inline(always)]
    pub fn hold<R: Wait>(&self, rt: &R) -> Holding<'_, N> {
        let held = match self.held.try_lock() {
            Some(held) => held,
            None => self.wait_for_lock(rt),
        };
        Holding {
            table: &self.table,
            held,
        }
    }

    /// Lets a thread that looks for the lock have it first, for a caller that has just given it back and will ask for it
    /// again: waits until one has got it, but no longer than a look for it takes.
    #[inline]
    pub fn give_way(&self) {
        self.waiters.let_one_in();
    }

    // Whoever has the lock keeps it for some microseconds, and to wake a thread that sleeps takes longer. Each look takes
    // the lock's memory from the thread that works beside it, so looks are rare.
    /// Takes the lock that another thread has: looks for it a bounded number of times, and then sleeps. It is a function
    /// of its own, so that a lock that is free costs one exchange.
    #[cold]
    #[inline(never)]
    fn wait_for_lock<R: Wait>(&self, rt: &R) -> MutexGuard<'_, CachePadded<Held<N>>> {
        self.waiters.come();
        for _ in 0..LOOKS {
            for _ in 0..PAUSES {
                spin_loop();
            }
            if let Some(held) = self.held.try_lock() {
                self.waiters.leave();
                return held;
            }
        }
        self.waiters.leave();
        self.held.lock(rt)
    }

    /// Reads a page of the table at count `h`, without the lock.
    #[inline(always)]
    fn try_table(&self, pass: &mut Pass<N>, index: u8, h: u64) -> Result<Page, PageFault>
        requires index { index ≤ N.state.cpus }
        ensures { ReadTold N.state h result (HasReadOnce N.state index h false)
            (IsPageFault N.state.anchor index h) pass.old pass.new }
    {
        try_table_on(&self.table, &self.host, &mut pass.seat, index, h)
    }

    /// Reads a page of the table at count `h`, under the lock.
    fn table_locked<R: Wait>(
        &self,
        rt: &R,
        pass: &mut Pass<N>,
        index: u8,
        h: u64,
    ) -> Result<Page, LockedFault>
        requires index { index ≤ N.state.cpus }
        ensures { ReadTold N.state h result (HasReadOnce N.state index h true)
            (IsLockedFault N.state.anchor h) pass.old pass.new }
    {
        if let Err(fault) = self.host.check(h) {
            return Err(LockedFault::NoTime(fault));
        }
        match self.hold(rt).held.page(&self.table, pass, index, h) {
            Ok(page) => Ok(page),
            Err(front) => Err(LockedFault::Spent { front }),
        }
    }

    /// Reads a page of the table at count `h`: once without the lock, and under it only where that met an update.
    #[inline(always)]
    fn read_table<R: Wait>(
        &self,
        rt: &R,
        pass: &mut Pass<N>,
        index: u8,
        h: u64,
    ) -> Result<Page, LockedFault>
        requires index { index ≤ N.state.cpus }
        ensures { ReadTold N.state h result (HasReadTable N.state index h)
            (IsReadFault N.state.anchor index h) pass.old pass.new }
    {
        match self.try_table(pass, index, h) {
            Ok(page) => Ok(page),
            Err(PageFault::NoTime(fault)) => Err(LockedFault::NoTime(fault)),
            Err(PageFault::Again { .. }) => self.table_locked(rt, pass, index, h),
        }
    }

    /// Reads a page, or the clock by it, at count `h`, without the lock.
    #[inline(always)]
    pub fn try_read(&self, pass: &mut Pass<N>, what: Read, h: u64) -> Result<ReadReply, PageFault>
        requires may { MayRead N.state what }
        ensures { ReadTold N.state h result (HasTried N.state what h)
            (IsPageFault N.state.anchor (place_in N.state.cpus what) h) pass.old pass.new }
    {
        match self.try_table(pass, self.place(what), h) {
            Ok(page) => Ok(self.answer_by_page(pass, what, h, &page)),
            Err(fault) => Err(fault),
        }
    }

    /// Reads a page, or the clock by it, at count `h`: once without the lock, and under it only where that met an update.
    #[inline(always)]
    pub fn read<R: Wait>(
        &self,
        rt: &R,
        pass: &mut Pass<N>,
        what: Read,
        h: u64,
    ) -> Result<ReadReply, LockedFault>
        requires may { MayRead N.state what }
        ensures { ReadTold N.state h result (HasRead N.state what h)
            (IsReadFault N.state.anchor (place_in N.state.cpus what) h) pass.old pass.new }
    {
        match self.read_table(rt, pass, self.place(what), h) {
            Ok(page) => Ok(self.answer_by_page(pass, what, h, &page)),
            Err(fault) => Err(fault),
        }
    }

    /// The place of a page in the table.
    #[inline(always)]
    fn place(&self, what: Read) -> u8
        requires may { MayRead N.state what }
        ensures value { result ≡ place_in N.state.cpus what }
        ensures inside { result ≤ N.state.cpus }
    {
        match what {
            Read::Page { cpu } | Read::Clock { cpu } => cpu,
            Read::Hv => self.cpus,
        }
    }

    /// What a read is answered by the page that the pass has just read.
    #[inline(always)]
    fn answer_by_page(&self, pass: &mut Pass<N>, what: Read, h: u64, page: &Page) -> ReadReply
        requires read { IsLastPage what h page.now pass.old }
        ensures { IsAnswered N.state what h page.now result pass.old pass.new }
    {
        match what {
            Read::Page { .. } => ReadReply::Page {
                reply: answer_by(self.ratio, page, h),
            },
            Read::Clock { cpu } => ReadReply::Clock {
                reply: self.clamp(pass, cpu, answer_by(self.ratio, page, h)),
            },
            Read::Hv => ReadReply::Hv {
                reply: hv_answer_by(self.ratio, &of_page(page), h),
            },
        }
    }

    /// The clamp after a read of a page.
    fn clamp(&self, pass: &mut Pass<N>, cpu: u8, read: PageReply) -> ClockReply
        requires read { IsLastRead (ratio_in N.state) cpu read pass.old }
        ensures { HasClamped cpu read result pass.old pass.new }
    {
        match read {
            PageReply::Off => ClockReply::Off,
            PageReply::On { reading, .. } => ClockReply::On {
                reading,
                clock: self.table.raise(&mut pass.seat, cpu, reading),
            },
        }
    }

    /// Takes the board apart, where all its passes are given back.
    pub fn stop(self, passes: Vec<Pass<N>>) -> Result<Stopped, PassesOut<N>>
        ensures ok { IfOk result (λ s. StopTold N.state N.passes s.state.value passes.items) }
        ensures given { IfErr result (λ out. (out.given ≡ vec_len passes) × (out.made ≡ N.passes)) }
        ensures back { IfErr result (λ out. out.passes.items ≡ passes.items) }
        ensures few { IsErr result ↔ (vec_len passes < N.passes) }
    {
        if passes.len() < self.passes as usize {
            return Err(PassesOut {
                given: passes.len() as u64,
                made: u64::from(self.passes),
                board: self,
                passes,
            });
        }
        let SharedBoard { table, held, .. } = self;
        let Held { board, mut writer } = held.into_inner().into_inner().into_inner();
        let seat = join_all(&table, writer.take(), passes);
        let closed = table.close(seat);
        let mut state = board.into_board();
        state.set_greatest(closed.greatest);
        Ok(Stopped { state })
    }
}
