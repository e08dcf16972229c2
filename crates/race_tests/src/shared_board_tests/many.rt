//! Two threads on one board.
ghost use Rattle.std.specs.Prelude.{◌<◌};

use super::setups::{Case, Ready, plain_board, stopped, test_on};
use super::{ENABLE, number};
use crate::checks::{holds, same};
use board_core::Access;
use board_io::Gate;
use clock_table::Name;
use pvclock_page::PageReply;
use shared_board::{Asked, Pass, Read, ReadReply, SharedBoard};
use std::alloc::{AllocError, Global};
use std::process::Abort;
use std::sync::Wait;
use std::sync::atomic::{AtomicBool, Ordering};
use std::test::Fail;
use std::thread::{Threads, join};

#[test]
fn each_number_comes_once(rt: HostRuntime) -> Result<(), Fail> {
    test_on(&rt, rt.alloc(), Case::StepsOfTwo, plain_board(), 2)
}

/// Two threads make a hundred accesses each.
pub(super) fn steps_of_two<N: Name + Send + Sync, R: Threads + Wait + Abort + Sync>(
    rt: &R,
    alloc: Global,
    ready: Ready<N>,
) -> Result<(), Fail> {
    let (board, one, two) = ready.two()?;
    let shared = &board;
    let (one, two) = join(
        rt,
        move || -> Result<(Pass<N>, Vec<u64>), AllocError>
            requires { 0 < N.state.cpus }
        { hundred(rt, alloc, shared, one, 0) },
        move || -> Result<(Pass<N>, Vec<u64>), AllocError>
            requires { 1 < N.state.cpus }
        { hundred(rt, alloc, shared, two, 1) },
    );
    let (one, mut numbers) = one?;
    let (two, others) = two?;
    for number in others {
        numbers.push(number)?;
    }
    numbers.sort()?;
    same(rt, "numbers", numbers.len(), 200);
    for (number, wanted) in numbers.iter().zip(1..201) {
        same(rt, wanted, *number, wanted);
    }
    let state = stopped(alloc, board, one, two)?;
    same(rt, "accesses", state.accesses(), 200);
    Ok(())
}

/// A hundred accesses, and their numbers.
fn hundred<N: Name>(
    rt: &impl Wait,
    alloc: Global,
    board: &SharedBoard<N>,
    mut pass: Pass<N>,
    cpu: u8,
) -> Result<(Pass<N>, Vec<u64>), AllocError>
    requires { cpu < N.state.cpus }
{
    let mut numbers = Vec::new(alloc);
    for h in 0..100 {
        numbers.push(number(rt, board, &mut pass, cpu, h, Access::Step))?;
    }
    Ok((pass, numbers))
}

#[test]
fn no_page_is_torn_beside_a_writer(rt: HostRuntime) -> Result<(), Fail> {
    test_on(&rt, rt.alloc(), Case::ReadsBeside, plain_board(), 2)
}

/// One thread publishes a page, and another reads it.
pub(super) fn reads_beside<N: Name + Send + Sync, R: Threads + Wait + Abort + Sync>(
    rt: &R,
    alloc: Global,
    ready: Ready<N>,
) -> Result<(), Fail> {
    let (board, mut one, two) = ready.two()?;
    same(rt, "page 0", number(rt, &board, &mut one, 0, 0, ENABLE), 1);
    let shared = &board;
    let (one, (two, faults)) = join(
        rt,
        move || -> Pass<N>
            requires { 0 < N.state.cpus }
        { publishes(rt, shared, one) },
        move || -> (Pass<N>, u64)
            requires { 0 < N.state.cpus }
        { faults_read(rt, shared, two) },
    );
    same(rt, "faults", faults, 0);
    let state = stopped(alloc, board, one, two)?;
    same(rt, "accesses", state.accesses(), 10_001);
    Ok(())
}

/// Publishes page 0 ten thousand times, each time a nanosecond later.
fn publishes<N: Name>(rt: &impl Wait, board: &SharedBoard<N>, mut pass: Pass<N>) -> Pass<N>
    requires { 0 < N.state.cpus }
{
    for h in 1..10_001 {
        let _ = number(rt, board, &mut pass, 0, h, Access::Refresh { page: 0 });
    }
    pass
}

/// How many of ten thousand reads of page 0 found it torn, or older than before. A page that is whole has a TSC of
/// twice its time, and the version of that publishing.
fn faults_read<N: Name>(rt: &impl Wait, board: &SharedBoard<N>, mut pass: Pass<N>) -> (Pass<N>, u64)
    requires { 0 < N.state.cpus }
{
    let mut last = 2;
    let mut faults = 0u64;
    for _ in 0..10_000 {
        let read = board.read(rt, &mut pass, Read::Page { cpu: 0 }, 20_000);
        if let Ok(
            ReadReply::Page {
                reply: PageReply::On { page, .. },
            },
        ) = read
        {
            let whole = page.tsc_timestamp / 2 == page.system_time
                && page.version / 2 == page.system_time.saturating_add(1);
            if !whole || page.version < last {
                faults = faults.saturating_add(1);
            }
            last = page.version;
        } else {
            faults = faults.saturating_add(1);
        }
    }
    (pass, faults)
}

/// Holds an access, when it has the lock, until a page was read.
#[derive(Drop)]
struct Meeting {
    inside: AtomicBool,
    read: AtomicBool,
}

/// Waits for a word, for a long but bounded time. Whether it came.
fn comes(word: &AtomicBool) -> bool {
    for _ in 0..1_000_000_000u64 {
        if word.load(Ordering::SeqCst) {
            return true;
        }
    }
    false
}

impl Gate for Meeting {
    fn before<R: Wait>(&self, _rt: &R, _cpu: u8, _index: u64) {}

    fn after<R: Wait>(&self, _rt: &R, _cpu: u8, _index: u64) {}

    fn inside<R: Wait>(&self, _rt: &R, _cpu: u8) {
        self.inside.store(true, Ordering::SeqCst);
        let _ = comes(&self.read);
    }
}

#[test]
fn a_page_is_read_while_the_lock_is_held(rt: HostRuntime) -> Result<(), Fail> {
    test_on(&rt, rt.alloc(), Case::MetInside, plain_board(), 2)
}

/// One thread has the lock until another has read a page.
pub(super) fn met_inside<N: Name + Send + Sync, R: Threads + Wait + Abort + Sync>(
    rt: &R,
    ready: Ready<N>,
) -> Result<(), Fail> {
    let (board, one, two) = ready.two()?;
    let gate = Meeting {
        inside: AtomicBool::new(false),
        read: AtomicBool::new(false),
    };
    let shared = &board;
    let gates = &gate;
    let (taken, met) = join(
        rt,
        move || -> bool
            requires { 0 < N.state.cpus }
        { steps_in(rt, gates, shared, one) },
        move || -> bool
            requires { 0 < N.state.cpus }
        { reads_inside(gates, shared, two) },
    );
    holds(rt, "the access was taken", taken);
    holds(rt, "the page was read while the access had the lock", met);
    Ok(())
}

/// Steps through the gate. Whether the page was read before the access was let go.
fn steps_in<N: Name>(
    rt: &impl Wait,
    gate: &Meeting,
    board: &SharedBoard<N>,
    mut pass: Pass<N>,
) -> bool
    requires { 0 < N.state.cpus }
{
    let step = Asked {
        cpu: 0,
        h: 0,
        access: Access::Step,
    };
    let taken = board.access(rt, gate, &mut pass, step).is_ok();
    taken && gate.read.load(Ordering::SeqCst)
}

/// Reads a page once the access has the lock. Whether it was read.
fn reads_inside<N: Name>(gate: &Meeting, board: &SharedBoard<N>, mut pass: Pass<N>) -> bool
    requires { 0 < N.state.cpus }
{
    let inside = comes(&gate.inside);
    let read = board.try_read(&mut pass, Read::Page { cpu: 0 }, 0).is_ok();
    gate.read.store(true, Ordering::SeqCst);
    inside && read
}
