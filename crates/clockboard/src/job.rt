//! The job between standard input and standard output.
ghost use Rattle.std.specs.Prelude.{◌≡◌, Bool, map};
ghost use Rattle.std.specs.String.{string_bytes};
ghost use Rattle.command_line.specs.Command.{command_of};
ghost use Rattle.command_line.specs.declared.command.Command.TheVariants.{Replay as ReplayOf, Race as RaceOf};
ghost use Rattle.clockboard.specs.Ran.{Replayed, Raced, RacedAlone, unread, unwritten};

use board_io::{OpenGate, ReadSource, Sink, Source, WriteSink};
use std::alloc::Global;
use std::io::{Stdin, Stdout};
use std::sync::Wait;
use std::thread::Threads;
use trace_runner::Status;

/// What a run leaves: how it ended, and both ends, whose logs its clauses read.
#[derive(Drop)]
pub(crate) struct Ran {
    pub(crate) status: Status,
    pub(crate) source: ReadSource<Stdin>,
    pub(crate) sink: WriteSink<Stdout>,
}

/// Runs the program on its words (those after its name) over standard input and standard output.
pub(crate) fn run<R: Threads + Wait + Sync>(
    rt: &R,
    alloc: Global,
    words: &[String],
    stdin: Stdin,
    stdout: Stdout,
) -> Ran
    ensures replay { (shows_state : Bool) → command_of (map string_bytes words.now) ≡ ReplayOf shows_state
        → Replayed shows_state result.status unread (⟦<ReadSource<Stdin> as Source>⟧.input result.source)
        unwritten (⟦<WriteSink<Stdout> as Sink>⟧.output result.sink) }
    ensures race { (shows_state : Bool) → command_of (map string_bytes words.now) ≡ RaceOf shows_state
        → Raced shows_state result.status unread (⟦<ReadSource<Stdin> as Source>⟧.input result.source)
        unwritten (⟦<WriteSink<Stdout> as Sink>⟧.output result.sink) }
    ensures race_alone { (shows_state : Bool) → command_of (map string_bytes words.now) ≡ RaceOf shows_state
        → RacedAlone shows_state result.status unread (⟦<ReadSource<Stdin> as Source>⟧.input result.source)
        unwritten (⟦<WriteSink<Stdout> as Sink>⟧.output result.sink) }
{
    let mut source = ReadSource::new(stdin);
    let mut sink = WriteSink::new(stdout);
    let status = trace_runner::run(rt, alloc, words, &mut source, &mut sink, &OpenGate);
    Ran {
        status,
        source,
        sink,
    }
}
