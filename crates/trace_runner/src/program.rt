//! The program: its words, its source, its sink.
ghost use Rattle.std.specs.Prelude.{
  ◌≡◌,
  ◌≢◌,
  ℕ,
  Bool,
  ◌-◌,
  List,
  [],
  ◌⊎◌,
  Some,
  None,
  false,
  map,
  take,
};
ghost use Rattle.std.specs.String.{string_bytes};
ghost use Rattle.board_io.specs.Ends.{Gave, Gives};
ghost use Rattle.board_io.specs.Faults.{Rose};
ghost use Rattle.command_line.specs.Command.{command_of, HasSize};
ghost use Rattle.command_line.specs.declared.command.Command.TheVariants.{Replay as ReplayOf, Race as RaceOf};
ghost use Rattle.trace_loop.specs.Text.{memory_fault_text};
ghost use Rattle.trace_replay.specs.Said.{PutsOnly, Said, SaidAtMost};
ghost use Rattle.trace_runner.specs.Sayings.{
  Saying,
  reads_trace,
  saying_of,
};
ghost use Rattle.trace_replay.specs.Status.{Shown};
ghost use Rattle.trace_replay.specs.Replay.{progress_after, replay, replay_run};
ghost use Rattle.trace_runner.specs.Check.{check_after, check};
ghost use Rattle.trace_runner.specs.Race.{RaceLeaves, AloneLeaves, check_run};
ghost use Rattle.trace_runner.specs.Trace.{TraceRead};
ghost use Rattle.trace_runner.specs.Checked.Checked.{Whole};
ghost use Rattle.trace_replay.specs.WholeLines.{IsWholeLines};

use crate::generate::generate;
use crate::race::race;
use crate::texts::{USAGE, VERSION, help};
use board_io::{Gate, Sink, Source};
use command_line::{Command, command_of};
use std::alloc::Global;
use std::sync::Wait;
use std::thread::Threads;
use trace_loop::{MEMORY_FAULT, answer_lines, say};
use trace_replay::{Replay, Status, run_soak, status_of};

/// Runs the program on its words (those after its name): the job `replay` reads a trace from `source`, and writes
/// what it answers to `sink`, in pieces as large as the source's.
///
/// Each line whose end was taken is answered before more is taken. Nothing is taken after the piece that ended the
/// trace: by the line `end`, by a line that is refused, or by a line that is too long. Nothing is put
/// after a put that failed.
///
/// The job `race` reads and checks the whole trace, and writes nothing but the line that is refused. Each of its phases,
/// which a save or a move ends, runs meanwhile on threads, at most one a processor, which `rt` starts; `gate` is called around each
/// record. What the phases print is put when the check is through, each in the order of the processors: with one processor
/// that is what the job `replay` prints.
///
/// # Statuses
///
/// - `Ok`: the trace was read to `end`, or the job was done: a generated trace was printed, or the sum of a soak, or the
///   help or the version.
/// - `Usage`: the words are no command; the usage is printed, and nothing is taken.
/// - `BadRecord`: that line, or the end of the input at it, is refused for the reason given.
/// - `OutOfRange`: the time of that line's count, or that after a move's gap, is `clk_units::RANGE_NS` or more.
/// - `VersionsSpent`: that line would publish a page, or the wall clock's words, past the last version.
/// - `Spent`: 2^62 accesses came before that line.
/// - `SourceFault`, `SinkFault`: only where that end counted a fault in this call. What was written is then the blocks
///   of all whole lines given and `fault source`, or a prefix of what would be printed.
/// - `NoMemory`: memory ran out; what was written is a prefix of what would be printed, and `fault memory`.
/// - `ThreadFault`: what the threads of a race gave back doesn't fit together, as no working host brings about;
///   `fault thread` was written.
#[tactic(auto, using(trace_replay::proofs::WholeLines::progress_whole, crate::proofs::CheckQuiet::silent_going))]
pub fn run<R: Threads + Wait + Sync, S: Source, K: Sink, G: Gate + Sync>(
    rt: &R,
    alloc: Global,
    words: &[String],
    source: &mut S,
    sink: &mut K,
    gate: &G,
) -> Status
    // a trace that is replayed; or memory ran out as the words were read, and nothing was taken
    ensures replay { (shows_state : Bool)
        → command_of (map string_bytes words.now) ≡ ReplayOf shows_state
        → (input : List ℕ) → Gave (S.input source.old) (S.input source.new) input
        → Shown (replay_run shows_state input (S.input source.old)
        (S.input source.new))
        result (K.output sink.old).contents (K.output sink.new).contents
        ⊎ (Said Status.NoMemory result (K.output sink.old).contents (K.output sink.new).contents
        memory_fault_text (Rose (K.output sink.old).faults (K.output sink.new).faults)
        × (source.new ≡ source.old)) }
    ensures stopped { (shows_state : Bool)
        → command_of (map string_bytes words.now) ≡ ReplayOf shows_state
        → (input : List ℕ) → Gave (S.input source.old) (S.input source.new) input
        → ((progress_after shows_state
        (take ((S.input source.new).before - (S.input source.old).given) input)).end ≡ None)
        ⊎ (source.new ≡ source.old) }
    ensures once { (S.input source.old).done ≡ false → (S.input source.old).late ≡ false
        → (S.input source.new).late ≡ false }
    // a trace whose processors run on threads of their own
    ensures race { (shows_state : Bool)
        → command_of (map string_bytes words.now) ≡ RaceOf shows_state
        → (input : List ℕ) → Gave (S.input source.old) (S.input source.new) input
        → RaceLeaves (check_run shows_state input (S.input source.old)
        (S.input source.new))
        result (K.output sink.old).contents (K.output sink.new).contents
        (Rose (K.output sink.old).faults (K.output sink.new).faults)
        ⊎ (Said Status.NoMemory result (K.output sink.old).contents (K.output sink.new).contents
        memory_fault_text (Rose (K.output sink.old).faults (K.output sink.new).faults)
        × (source.new ≡ source.old)) }
    ensures race_stopped { (shows_state : Bool)
        → command_of (map string_bytes words.now) ≡ RaceOf shows_state
        → (input : List ℕ) → Gave (S.input source.old) (S.input source.new) input
        → ((check_after shows_state
        (take ((S.input source.new).before - (S.input source.old).given) input)).end ≡ None)
        ⊎ (source.new ≡ source.old) }
    // .. which prints what its replay prints where it has one processor, and no line is refused
    ensures race_alone { (shows_state : Bool)
        → command_of (map string_bytes words.now) ≡ RaceOf shows_state
        → (input : List ℕ) → Gave (S.input source.old) (S.input source.new) input
        → (trace : TraceRead) → (check shows_state input).end ≡ Whole trace
        → trace.opening.cpus ≡ 1
        → AloneLeaves (check_run shows_state input (S.input source.old)
        (S.input source.new))
        (replay shows_state input) result (K.output sink.old).contents (K.output sink.new).contents
        (Rose (K.output sink.old).faults (K.output sink.new).faults)
        ⊎ (Said Status.NoMemory result (K.output sink.old).contents (K.output sink.new).contents
        memory_fault_text (Rose (K.output sink.old).faults (K.output sink.new).faults)
        × (source.new ≡ source.old)) }
    // what is printed before the word of a fault: whole lines in a replay, nothing in a race
    ensures whole_lines { (shows_state : Bool) → (bytes : List ℕ)
        → IsWholeLines (progress_after shows_state bytes).printed }
    ensures race_silent { (shows_state : Bool) → (bytes : List ℕ)
        → (check_after shows_state bytes).end ≡ None
        → (check_after shows_state bytes).printed ≡ [] }
    // every other command
    ensures said { (saying : Saying)
        → saying_of (command_of (map string_bytes words.now)) ≡ Some saying
        → SaidAtMost saying.status result (K.output sink.old).contents (K.output sink.new).contents
        saying.text (Rose (K.output sink.old).faults (K.output sink.new).faults) }
    ensures untouched { reads_trace (command_of (map string_bytes words.now)) ≡ false
        → source.new ≡ source.old }
    // what the source gave, and that an input that was known before is one that it can have had
    ensures gives { Gives (S.input source.old) (S.input source.new) }
    // the faults of both ends
    ensures well { result ≢ Status.SourceFault → result ≢ Status.SinkFault
        → (S.input source.new).faults ≡ (S.input source.old).faults }
    ensures source_fault { result ≡ Status.SourceFault
        → Rose (S.input source.old).faults (S.input source.new).faults }
    ensures sink_fault { result ≡ Status.SinkFault
        → Rose (K.output sink.old).faults (K.output sink.new).faults }
    ensures sink_well { result ≢ Status.SinkFault → (K.output sink.new).faults ≡ (K.output sink.old).faults }
    ensures sink_once { (K.output sink.old).done ≡ false → (K.output sink.old).late ≡ false
        → (K.output sink.new).late ≡ false }
{
    match command_of(alloc, words) {
        Ok(Command::Replay { shows_state }) => {
            let mut replay = Replay::new(shows_state);
            status_of(answer_lines(alloc, &mut replay, source, sink))
        }
        Ok(Command::Race { shows_state }) => race(rt, alloc, gate, shows_state, source, sink),
        Ok(command) => tell(alloc, command, sink),
        Err(_) => say(sink, MEMORY_FAULT, Status::NoMemory, Status::SinkFault),
    }
}

/// Does a command that reads no trace.
fn tell<K: Sink>(alloc: Global, command: Command, sink: &mut K) -> Status
    requires trace { reads_trace command ≡ false }
    requires size { HasSize command }
    ensures said { (saying : Saying) → saying_of command ≡ Some saying
        → SaidAtMost saying.status result (K.output sink.old).contents (K.output sink.new).contents
        saying.text (Rose (K.output sink.old).faults (K.output sink.new).faults) }
    ensures puts { PutsOnly result (K.output sink.old) (K.output sink.new) }
{
    match command {
        Command::Gen(size) => generate(size, sink),
        Command::Soak(size) => run_soak(alloc, size, sink),
        Command::Help(page) => say(sink, help(page), Status::Ok, Status::SinkFault),
        Command::Version => say(sink, VERSION, Status::Ok, Status::SinkFault),
        Command::Unknown | Command::Replay { .. } | Command::Race { .. } => say(
            sink,
            USAGE,
            Status::Usage,
            Status::SinkFault,
        ),
    }
}
