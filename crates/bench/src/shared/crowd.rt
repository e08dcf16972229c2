//! Rows that several threads make at once.
ghost use Rattle.std.specs.Prelude.{◌≡◌, ◌<◌};

use super::alone::{ENABLE, READ, ask};
use board_core::{Access, BoardState};
use board_io::OpenGate;
use clk_units::NoMemory;
use clock_table::{Blank, Name};
use shared_board::{Pass, Read, SharedBoard};
use std::alloc::{AllocError, Global};
use std::io;
use std::rt::Clock;
use std::sync::Wait;
use std::sync::atomic::{AtomicU64, Ordering};
use std::thread::{Threads, map_vec};
use std::time::Instant;

/// How many calls each thread makes.
const CALLS: u64 = 1_000_000;

/// The most often that the page is published.
const MOST: u64 = 100_000_000;

/// Nanoseconds in a second.
const SECOND: u128 = 1_000_000_000;

/// What the threads do.
#[derive(Clone, Copy)]
pub(crate) enum Kind {
    /// Pass 0 publishes page 0, all others read it.
    Reads,
    /// All passes read a port.
    Accesses,
}

/// How many calls a second the threads of a new board make together, one for each pass. What pass 0 publishes isn't
/// counted.
pub(crate) fn crowded<N: Name + Send + Sync, R: Threads + Wait + Clock + Sync>(
    rt: &R,
    alloc: Global,
    blank: Blank,
    state: &BoardState,
    passes: u8,
    kind: Kind,
) -> io::Result<u128>
    requires blank { (blank.0 ≡ N.table) × (blank.1 ≡ N.state) }
    requires state { state.now ≡ N.state }
    requires cpus { N.state.cpus ≡ 1 }
    requires passes { passes ≡ N.passes }
{
    let (board, passes) = match SharedBoard::<N>::new(alloc, blank, state, passes) {
        Ok(made) => made,
        Err(NoMemory) => return Err(AllocError.into()),
    };
    let left = AtomicU64::new(match kind {
        Kind::Reads => (passes.len() as u64).saturating_sub(1),
        Kind::Accesses => 0,
    });
    let shared = &board;
    let readers = &left;
    let start = Instant::now(rt)?;
    let done = map_vec(
        rt,
        passes,
        &move |pass: Pass<N>| -> u64
            requires { 0 < N.state.cpus }
        { work(rt, shared, readers, kind, pass) },
    )?;
    let nanoseconds = start.elapsed(rt)?.as_nanos();
    let mut calls = 0u128;
    for count in &done {
        calls = calls.saturating_add(u128::from(*count));
    }
    Ok(calls.saturating_mul(SECOND) / nanoseconds.max(1))
}

/// What the thread of a pass does. Answers how many of its calls are counted.
fn work<N: Name>(
    rt: &impl Wait,
    board: &SharedBoard<N>,
    readers: &AtomicU64,
    kind: Kind,
    pass: Pass<N>,
) -> u64
    requires { 0 < N.state.cpus }
{
    match kind {
        Kind::Accesses => accesses(rt, board, pass),
        Kind::Reads if pass.number() == 0 => {
            publishes(rt, board, readers, pass);
            0
        }
        Kind::Reads => {
            let read = reads(rt, board, pass);
            readers.fetch_sub(1, Ordering::SeqCst);
            read
        }
    }
}

/// Publishes page 0, each time a nanosecond later, until no thread reads.
fn publishes<N: Name>(
    rt: &impl Wait,
    board: &SharedBoard<N>,
    readers: &AtomicU64,
    mut pass: Pass<N>,
)
    requires { 0 < N.state.cpus }
{
    let _ = board.access(rt, &OpenGate, &mut pass, ask(0, ENABLE));
    for h in 0..MOST {
        if readers.load(Ordering::SeqCst) == 0 {
            return;
        }
        let publish = ask(h, Access::Refresh { page: 0 });
        let _ = board.access(rt, &OpenGate, &mut pass, publish);
    }
}

/// Reads page 0. Answers how often it was read.
fn reads<N: Name>(rt: &impl Wait, board: &SharedBoard<N>, mut pass: Pass<N>) -> u64
    requires { 0 < N.state.cpus }
{
    let mut read = 0u64;
    for _ in 0..CALLS {
        if board
            .read(rt, &mut pass, Read::Page { cpu: 0 }, MOST)
            .is_ok()
        {
            read = read.saturating_add(1);
        }
    }
    read
}

/// Reads a port. Answers how often it was read.
fn accesses<N: Name>(rt: &impl Wait, board: &SharedBoard<N>, mut pass: Pass<N>) -> u64
    requires { 0 < N.state.cpus }
{
    let mut read = 0u64;
    for _ in 0..CALLS {
        if board.access(rt, &OpenGate, &mut pass, ask(0, READ)).is_ok() {
            read = read.saturating_add(1);
        }
    }
    read
}
