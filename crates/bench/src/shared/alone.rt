//! Rows that one thread makes, for a program that counts instructions.
ghost use Rattle.std.specs.Prelude.{◌≡◌, ◌<◌, ℕ, [], IsTrue};
ghost use Rattle.board_types.specs.Legal.{is_legal};
ghost use Rattle.board_types.specs.Reply.{IsFresh};

use board_core::{Access, BoardState, MSR_KVM_SYSTEM_TIME, Reply};
use board_io::OpenGate;
use clk_units::NoMemory;
use clock_table::{Blank, Name};
use pvclock_page::{Page, PageReply, reading};
use shared_board::{Asked, Pass, Read, ReadReply, SharedBoard};
use std::alloc::{AllocError, Global};
use std::sync::Wait;

/// How many calls a row makes.
const CALLS: u64 = 200_000;

/// Enables and publishes a page.
pub(crate) const ENABLE: Access = Access::MsrWrite {
    msr: MSR_KVM_SYSTEM_TIME,
    value: 1,
};

/// A read of counter 0 of the 8254.
pub(crate) const READ: Access = Access::PortIn { port: 0x40 };

/// The arithmetic of a page of 1 GHz, many times. Answers the sum of the readings.
pub(crate) fn reading_alone() -> u64 {
    let page = Page {
        version: 2,
        tsc_timestamp: 0,
        system_time: 0,
        mul: 0x8000_0000,
        shift: 1,
        flags: 1,
        offset: 0,
        enabled: true,
    };
    let mut sum = 0u64;
    for tsc in 0..CALLS {
        sum = sum.wrapping_add(reading_of(&page, tsc));
    }
    sum
}

/// One reading, which stands apart so that the loop can't be worked out beforehand.
#[inline(never)]
fn reading_of(page: &Page, tsc: u64) -> u64 {
    reading(page, tsc)
}

/// What a row calls of a shared board.
#[derive(Clone, Copy)]
pub(crate) enum Row {
    /// A read of a page without the lock.
    Page,
    /// An access that gives its reply.
    Access,
    /// An access that puts its reply in its place.
    Answer,
}

/// The access of a row: a read of a port, or one that does nothing. The program's words decide it, so the calls have
/// code for each kind of access.
pub(crate) fn asked(nothing: bool) -> Access
    ensures { (cpus format : ℕ) → IsTrue (is_legal cpus format result) }
{
    if nothing { Access::Step } else { READ }
}

/// An access by processor 0.
pub(crate) fn ask(h: u64, access: Access) -> Asked
    ensures cpu { result.cpu ≡ 0 }
    ensures access { result.access ≡ access }
{
    Asked { cpu: 0, h, access }
}

/// Accesses of a board that isn't shared. Answers the sum of their numbers.
pub(crate) fn core_alone(mut board: BoardState, a: Access) -> u64
    requires { (cpus format : ℕ) → IsTrue (is_legal cpus format a) }
{
    let mut sum = 0u64;
    for _ in 0..CALLS {
        sum = sum.wrapping_add(number_of(&mut board, a));
    }
    sum
}

/// One access, which stands apart so that its kind isn't known. Answers its number.
#[inline(never)]
fn number_of(board: &mut BoardState, a: Access) -> u64
    requires { (cpus format : ℕ) → IsTrue (is_legal cpus format a) }
{
    if board.cpus() == 0 {
        return 0;
    }
    match board.access(0, 0, a) {
        Ok(reply) => reply.number,
        Err(_refusal) => 0,
    }
}

/// The same accesses, whose replies are put in their place.
pub(crate) fn core_kept(mut board: BoardState, a: Access) -> u64
    requires { (cpus format : ℕ) → IsTrue (is_legal cpus format a) }
{
    let mut reply = Reply::empty();
    let mut sum = 0u64;
    for _ in 0..CALLS {
        reply.clear();
        put_reply(&mut board, a, &mut reply);
        sum = sum.wrapping_add(reply.number);
    }
    sum
}

/// One access, whose reply is put in its place.
#[inline(never)]
fn put_reply(board: &mut BoardState, a: Access, reply: &mut Reply)
    requires legal { (cpus format : ℕ) → IsTrue (is_legal cpus format a) }
    requires fresh { IsFresh reply.old }
{
    if board.cpus() == 0 {
        return;
    }
    let _told = board.answer(0, 0, a, reply);
}

/// The calls of a row on a shared board, by one pass. Answers their sum.
pub(crate) fn on_shared<N: Name, R: Wait>(
    rt: &R,
    alloc: Global,
    blank: Blank,
    state: &BoardState,
    row: Row,
    a: Access,
) -> Result<u64, AllocError>
    requires blank { (blank.0 ≡ N.table) × (blank.1 ≡ N.state) }
    requires state { state.now ≡ N.state }
    requires cpus { N.state.cpus ≡ 1 }
    requires passes { 1 ≡ N.passes }
    requires legal { (cpus format : ℕ) → IsTrue (is_legal cpus format a) }
{
    let (board, mut passes) = match SharedBoard::<N>::new(alloc, blank, state, 1) {
        Ok(made) => made,
        Err(NoMemory) => return Err(AllocError),
    };
    let mut pass = match passes.pop() {
        Some(pass) => pass,
        None => return Ok(0),
    };
    Ok(match row {
        Row::Page => pages(rt, &board, &mut pass),
        Row::Access => accesses(rt, &board, &mut pass, a),
        Row::Answer => answers(rt, &board, &mut pass, a),
    })
}

/// Reads of the page of processor 0. Answers the sum of the readings.
fn pages<N: Name>(rt: &impl Wait, board: &SharedBoard<N>, pass: &mut Pass<N>) -> u64
    requires { 0 < N.state.cpus }
{
    let _ = board.access(rt, &OpenGate, pass, ask(0, ENABLE));
    let mut sum = 0u64;
    for h in 0..CALLS {
        let read = board.try_read(pass, Read::Page { cpu: 0 }, h);
        if let Ok(
            ReadReply::Page {
                reply: PageReply::On { reading, .. },
            },
        ) = read
        {
            sum = sum.wrapping_add(reading);
        }
    }
    sum
}

/// Accesses under the lock. Answers the sum of their numbers.
fn accesses<N: Name>(rt: &impl Wait, board: &SharedBoard<N>, pass: &mut Pass<N>, a: Access) -> u64
    requires cpus { 0 < N.state.cpus }
    requires legal { (cpus format : ℕ) → IsTrue (is_legal cpus format a) }
{
    let mut sum = 0u64;
    for _ in 0..CALLS {
        sum = sum.wrapping_add(number_under_lock(rt, board, pass, a));
    }
    sum
}

/// One access under the lock. Answers its number.
#[inline(never)]
fn number_under_lock<N: Name>(
    rt: &impl Wait,
    board: &SharedBoard<N>,
    pass: &mut Pass<N>,
    a: Access,
) -> u64
    requires cpus { 0 < N.state.cpus }
    requires legal { (cpus format : ℕ) → IsTrue (is_legal cpus format a) }
{
    match board.access(rt, &OpenGate, pass, ask(0, a)) {
        Ok(reply) => reply.number,
        Err(_refusal) => 0,
    }
}

/// The same accesses, whose replies are put in their place.
fn answers<N: Name>(rt: &impl Wait, board: &SharedBoard<N>, pass: &mut Pass<N>, a: Access) -> u64
    requires cpus { 0 < N.state.cpus }
    requires legal { (cpus format : ℕ) → IsTrue (is_legal cpus format a) }
{
    let mut reply = Reply::empty();
    let mut sum = 0u64;
    for _ in 0..CALLS {
        reply.clear();
        put_reply_under_lock(rt, board, pass, a, &mut reply);
        sum = sum.wrapping_add(reply.number);
    }
    sum
}

/// One access under the lock, whose reply is put in its place.
#[inline(never)]
fn put_reply_under_lock<N: Name>(
    rt: &impl Wait,
    board: &SharedBoard<N>,
    pass: &mut Pass<N>,
    a: Access,
    reply: &mut Reply,
)
    requires cpus { 0 < N.state.cpus }
    requires legal { (cpus format : ℕ) → IsTrue (is_legal cpus format a) }
    requires fresh { IsFresh reply.old }
{
    let _ = board.answer(rt, &OpenGate, pass, ask(0, a), reply);
}
