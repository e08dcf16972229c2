//! The job `race`: a trace whose processors run on threads of their own.
ghost use Rattle.std.specs.Prelude.{◌≡◌, ◌⊎◌, map, [], IfOk};
ghost use Rattle.race_phase.specs.Parts.{id_of};
ghost use Rattle.trace_runner.specs.Checked.Checked.{Whole};
ghost use Rattle.trace_runner.specs.private.CheckEnd.{IsRace};
ghost use Rattle.trace_runner.specs.private.Raced.{OfInput, WhereAlone, Raced, RacedAlone, HadGoneOn, HadNoPlaces};
ghost use Rattle.board_io.specs.Ends.{Gives};
ghost use Rattle.board_io.specs.Faults.{Rose};
ghost use Rattle.trace_loop.specs.Outcome.{KeepsEnds, Leaves};
ghost use Rattle.trace_runner.specs.Check.{check_answer, check_closing, unchecked};
ghost use Rattle.trace_runner.specs.FileText.{file_text};
ghost use Rattle.trace_runner.specs.Race.{RacePrints, CheckedLeaves, SaidByThreads};
ghost use Rattle.trace_replay.specs.Replay.{at_start};
ghost use Rattle.trace_replay.specs.Said.{PutsOnly};
ghost use Rattle.trace_replay.specs.Status.{verdict_status};

use crate::checker::Checker;
use crate::trace::{CheckEnd, Checked, Trace};
use board_io::{Gate, Sink, Source};
use race_phase::{Feed, Feeding, Halt, Ran, Row, Text, run_race};
use std::alloc::Global;
use std::marker::Brand;
use std::sync::Wait;
use std::sync::atomic::AtomicU64;
use std::thread::{Threads, join_mut};
use trace_loop::{Ended, MEMORY_FAULT, answer_lines, say, say_each};
use trace_replay::{Status, end, verdict_status};

/// What is printed where what the threads of a race gave back doesn't fit together.
pub(crate) const THREAD_FAULT: &[u8] = b"fault thread\n";

/// How much of the stack the reader of a trace takes at most, and more.
const STACK_LEN: usize = 768 * 1024;

/// So much stack, and a word.
#[derive(Drop)]
struct Room {
    bytes: [u8; STACK_LEN],
    word: AtomicU64,
}

/// Reads a trace and checks it in file order, while each of its phases runs by one thread a processor; then it writes what
/// they answer. A line that is refused is written alone. A trace of one processor, of which no line is refused, prints
/// what its replay prints.
pub(crate) fn race<R: Threads + Wait + Sync, S: Source, K: Sink, G: Gate + Sync>(
    rt: &R,
    alloc: Global,
    gate: &G,
    shows_state: bool,
    source: &mut S,
    sink: &mut K,
) -> Status
    ensures leaves { OfInput (S.input source.old) (S.input source.new) (λ input.
        Raced shows_state result (S.input source.old) (S.input source.new) (K.output sink.old) (K.output sink.new) input
        ⊎ HadNoPlaces result source.old source.new (K.output sink.old) (K.output sink.new)) }
    ensures alone { OfInput (S.input source.old) (S.input source.new) (λ input. WhereAlone shows_state input
        (RacedAlone shows_state result (S.input source.old) (S.input source.new) (K.output sink.old) (K.output sink.new) input
        ⊎ HadNoPlaces result source.old source.new (K.output sink.old) (K.output sink.new))) }
    ensures stopped { OfInput (S.input source.old) (S.input source.new) (λ input.
        HadGoneOn shows_state (S.input source.old) (S.input source.new) input ⊎ (source.new ≡ source.old)) }
    ensures gives { Gives (S.input source.old) (S.input source.new) }
    ensures ends { KeepsEnds Status.SourceFault Status.SinkFault result (S.input source.old)
        (S.input source.new) (K.output sink.old) (K.output sink.new) }
{
    grow_stack();
    match Row::new(alloc) {
        Ok(row) => race_in::<Brand, R, S, K, G>(row, rt, alloc, gate, shows_state, source, sink),
        Err(_) => say(sink, MEMORY_FAULT, Status::NoMemory, Status::SinkFault),
    }
}

// A stack grows in the address space, as it is used. Where the stacks of other threads have filled that up to the system's limit,
// the system ends the program by a signal.
/// Has the stack of this thread grow before other threads start. That a word on it is woken keeps the compiler from leaving
/// it out.
#[inline(never)]
fn grow_stack() {
    let room = Room {
        bytes: [0; STACK_LEN],
        word: AtomicU64::new(0),
    };
    room.word.wake_all();
}

/// The same in the places of a row.
fn race_in<F: Feeding + Send + Sync, R: Threads + Wait + Sync, S: Source, K: Sink, G: Gate + Sync>(
    row: Row,
    rt: &R,
    alloc: Global,
    gate: &G,
    shows_state: bool,
    source: &mut S,
    sink: &mut K,
) -> Status
    requires first { row.opening.id ≡ F.opening }
    requires row { map id_of row.pieces.items ≡ F.pieces }
    ensures leaves { OfInput (S.input source.old) (S.input source.new) (λ input.
        Raced shows_state result (S.input source.old) (S.input source.new) (K.output sink.old) (K.output sink.new) input) }
    ensures alone { OfInput (S.input source.old) (S.input source.new) (λ input. WhereAlone shows_state input
        (RacedAlone shows_state result (S.input source.old) (S.input source.new) (K.output sink.old) (K.output sink.new) input)) }
    ensures stopped { OfInput (S.input source.old) (S.input source.new) (λ input.
        HadGoneOn shows_state (S.input source.old) (S.input source.new) input) }
    ensures gives { Gives (S.input source.old) (S.input source.new) }
    ensures ends { KeepsEnds Status.SourceFault Status.SinkFault result (S.input source.old)
        (S.input source.new) (K.output sink.old) (K.output sink.new) }
{
    let feed = Feed::<F>::new(row);
    let feed = &feed;
    let (ran, ended) = run_and_check(rt, alloc, gate, feed, shows_state, source, sink);
    match ended {
        Ended::By(checked) => match checked.into_end() {
            CheckEnd::Whole(trace) => write(ran, alloc, &trace, sink),
            CheckEnd::Stopped(verdict) => verdict_status(verdict),
        },
        Ended::SourceFault => Status::SourceFault,
        Ended::SinkFault => Status::SinkFault,
        Ended::NoMemory => Status::NoMemory,
    }
}

/// Runs a trace while it is read and checked.
fn run_and_check<
    'a,
    F: Feeding + Send + Sync,
    R: Threads + Wait + Sync,
    S: Source,
    K: Sink,
    G: Gate + Sync,
>(
    rt: &R,
    alloc: Global,
    gate: &G,
    feed: &'a Feed<F>,
    shows_state: bool,
    source: &mut S,
    sink: &mut K,
) -> (Result<Ran<'a, F>, Halt>, Ended<Checked<'a, F>>)
    ensures ran { IfOk result.0 IsRace }
    ensures ended { Leaves check_answer check_closing (unchecked (at_start shows_state))
        (S.input source.old) (S.input source.new) (K.output sink.old) (K.output sink.new) result.1 }
{
    let mut run = move || -> Result<Ran<'_, F>, Halt> { run_race(rt, alloc, gate, feed) };
    let mut check = || -> Ended<Checked<'_, F>> { read(alloc, feed, shows_state, source, sink) };
    join_mut(rt, &mut run, &mut check)
}

/// Reads and checks a trace, which is put into a feed. Then what waits for more of it stops.
fn read<'a, F: Feeding, S: Source, K: Sink>(
    alloc: Global,
    feed: &'a Feed<F>,
    shows_state: bool,
    source: &mut S,
    sink: &mut K,
) -> Ended<Checked<'a, F>>
    ensures { Leaves check_answer check_closing (unchecked (at_start shows_state))
        (S.input source.old) (S.input source.new) (K.output sink.old) (K.output sink.new) result }
{
    let mut check = Checker::new(alloc, feed, shows_state);
    let ended = answer_lines(alloc, &mut check, source, sink);
    check.close_feed();
    ended
}

/// Writes what a trace prints that was checked, where it was run.
fn write<'a, F: Feeding, K: Sink>(
    ran: Result<Ran<'a, F>, Halt>,
    alloc: Global,
    trace: &Trace<'a, F>,
    sink: &mut K,
) -> Status
    requires ran { IfOk ran IsRace }
    ensures said { CheckedLeaves (Whole trace.now) [] result (K.output sink.old).contents
        (K.output sink.new).contents (Rose (K.output sink.old).faults (K.output sink.new).faults) }
    ensures alone { trace.now.opening.cpus ≡ 1 → SaidByThreads Status.Ok result
        (K.output sink.old).contents (K.output sink.new).contents (file_text trace.now)
        (Rose (K.output sink.old).faults (K.output sink.new).faults) }
    ensures puts { PutsOnly result (K.output sink.old) (K.output sink.new) }
{
    // It is named for the proof, which reads from it that no record of the trace is refused in file order.
    let _ = &trace.written;
    match text_of(ran, alloc, trace) {
        Ok(text) => say_each(sink, text.pieces(), Status::Ok, Status::SinkFault),
        Err(Halt::NoMemory) => say(sink, MEMORY_FAULT, Status::NoMemory, Status::SinkFault),
        Err(Halt::Closed) => say(sink, THREAD_FAULT, Status::ThreadFault, Status::SinkFault),
    }
}

/// What a trace prints that was checked, where it was run.
fn text_of<'a, F: Feeding>(
    ran: Result<Ran<'a, F>, Halt>,
    alloc: Global,
    trace: &Trace<'a, F>,
) -> Result<Text, Halt>
    requires ran { IfOk ran IsRace }
    ensures { IfOk result (λ text. RacePrints trace.now text) }
{
    let Ran {
        state,
        mut text,
        trace: run,
    } = ran?;
    if !run.agrees(&trace.written) {
        return Err(Halt::Closed);
    }
    let mut last = Vec::new(alloc);
    end(&*state, trace.shows_state, &mut last)?;
    text.append(last)?;
    Ok(text)
}
