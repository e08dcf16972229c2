//! How many calls a second threads get from one shared board.
//!
//! With the word `time` this prints, for one, two and four threads, how many reads of a page a second they make together
//! beside one more thread that publishes it all the while, and how many accesses. With the word of a row one thread
//! makes those calls, for a program that counts instructions: `page` reads a page without the lock, `reading` does the
//! arithmetic of such a read alone; `access` reads a port under the lock, `core` the same on a board that isn't shared;
//! `answer` and `kept` likewise, with a reply that the caller keeps. With one more word the access does nothing.
ghost use Rattle.std.specs.Prelude.{◌≡◌, ℕ, IfOk, IsTrue};
ghost use Rattle.board_types.specs.Legal.{is_legal};

mod alone;
mod crowd;

use crate::USAGE;
use alone::{Row, asked, core_alone, core_kept, on_shared, reading_alone};
use board_core::{Access, BoardState, Setup};
use clock_table::Blank;
use crowd::{Kind, crowded};
use std::alloc::{AllocError, Global};
use std::io;
use std::marker::Brand;
use std::rt::Clock;
use std::sync::Wait;
use std::thread::Threads;

/// Prints the table, or a sum over what the calls of the row of this word answer; its accesses do nothing if `is_idle`.
pub(crate) fn run<R: Threads + Wait + Clock + Print + Sync>(
    rt: &R,
    alloc: Global,
    word: &[u8],
    is_idle: bool,
) -> io::Result<()> {
    if word == b"time".as_slice() {
        print_table(rt, alloc)
    } else {
        run_alone(rt, alloc, word, asked(is_idle))
    }
}

/// Prints a line for each number of threads.
fn print_table<R: Threads + Wait + Clock + Print + Sync>(rt: &R, alloc: Global) -> io::Result<()> {
    println!(rt; "threads    page reads a second    accesses a second")?;
    for threads in [1, 2, 4] {
        let reads = rate(rt, alloc, Kind::Reads, threads)?;
        let accesses = rate(rt, alloc, Kind::Accesses, threads)?;
        println!(rt; "{threads:>7}{reads:>23}{accesses:>21}")?;
    }
    Ok(())
}

/// How many calls of a kind so many threads make together in a second.
fn rate<R: Threads + Wait + Clock + Sync>(
    rt: &R,
    alloc: Global,
    kind: Kind,
    threads: u8,
) -> io::Result<u128> {
    let state = board();
    let blank = blank(alloc, &state)?;
    let passes = match kind {
        Kind::Reads => threads.saturating_add(1),
        Kind::Accesses => threads,
    };
    crowded::<Brand, R>(rt, alloc, blank, &state, passes, kind)
}

/// Makes the calls of the row of this word.
fn run_alone<R: Wait + Print>(rt: &R, alloc: Global, word: &[u8], a: Access) -> io::Result<()>
    requires { (cpus format : ℕ) → IsTrue (is_legal cpus format a) }
{
    let sum = if word == b"reading".as_slice() {
        reading_alone()
    } else if word == b"core".as_slice() {
        core_alone(board(), a)
    } else if word == b"kept".as_slice() {
        core_kept(board(), a)
    } else if let Some(row) = row_of(word) {
        let state = board();
        let blank = blank(alloc, &state)?;
        on_shared::<Brand, R>(rt, alloc, blank, &state, row, a)?
    } else {
        return println!(rt; "{USAGE}");
    };
    // the sum is used, so that no call can be left out
    println!(rt; "{sum}")
}

/// The row of a shared board that has this word.
fn row_of(word: &[u8]) -> Option<Row> {
    if word == b"page".as_slice() {
        Some(Row::Page)
    } else if word == b"access".as_slice() {
        Some(Row::Access)
    } else if word == b"answer".as_slice() {
        Some(Row::Answer)
    } else {
        None
    }
}

/// The words of a state, where there is memory.
fn blank(alloc: Global, state: &BoardState) -> Result<Blank, AllocError>
    ensures { IfOk result (λ b. b.1 ≡ state.now) }
{
    match Blank::new(alloc, state) {
        Ok(blank) => Ok(blank),
        Err(_no_memory) => Err(AllocError),
    }
}

/// A host and a guest of 1 GHz, both from 0, and one processor.
fn board() -> BoardState
    ensures { result.cpus ≡ 1 }
{
    BoardState::power_on(&Setup::by_default(1))
}
