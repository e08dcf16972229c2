//! What the program prints for a source whose bytes are known before the call.
ghost use Rattle.std.specs.Prelude.{◌≡◌, ℕ, Bool, ◌-◌, List, ◌⊎◌, Some, None, map, take};
ghost use Rattle.std.specs.String.{string_bytes};
ghost use Rattle.board_io.specs.Faults.{Rose};
ghost use Rattle.command_line.specs.Command.{command_of};
ghost use Rattle.command_line.specs.declared.command.Command.TheVariants.{Replay as ReplayOf, Race as RaceOf};
ghost use Rattle.trace_loop.specs.Text.{memory_fault_text};
ghost use Rattle.trace_replay.specs.Replay.{progress_after, replay, replay_run};
ghost use Rattle.trace_replay.specs.Said.{Said};
ghost use Rattle.trace_replay.specs.Status.{Shown};
ghost use Rattle.trace_runner.specs.Check.{check, check_after};
ghost use Rattle.trace_runner.specs.Checked.Checked.{Whole};
ghost use Rattle.trace_runner.specs.Race.{AloneLeaves, RaceLeaves, check_run};
ghost use Rattle.trace_runner.specs.Trace.{TraceRead};

use board_io::{Gate, Sink, Source};
use std::alloc::Global;
use std::sync::Wait;
use std::thread::Threads;
use trace_runner::{Status, run};

/// Runs the program: the source's bytes are the input that `run` speaks of.
pub fn run_known<R: Threads + Wait + Sync, S: Source, K: Sink, G: Gate + Sync>(
    rt: &R,
    alloc: Global,
    words: &[String],
    source: &mut S,
    sink: &mut K,
    gate: &G,
) -> Status
    ensures replay { (shows_state : Bool) → command_of (map string_bytes words.now) ≡ ReplayOf shows_state
        → (input : List ℕ) → (S.input source.old).remaining ≡ Some input
        → Shown (replay_run shows_state input (S.input source.old) (S.input source.new))
        result (K.output sink.old).contents (K.output sink.new).contents
        ⊎ (Said Status.NoMemory result (K.output sink.old).contents (K.output sink.new).contents
        memory_fault_text (Rose (K.output sink.old).faults (K.output sink.new).faults)
        × (source.new ≡ source.old)) }
    ensures stopped { (shows_state : Bool) → command_of (map string_bytes words.now) ≡ ReplayOf shows_state
        → (input : List ℕ) → (S.input source.old).remaining ≡ Some input
        → ((progress_after shows_state (take ((S.input source.new).before - (S.input source.old).given) input)).end ≡ None)
        ⊎ (source.new ≡ source.old) }
    ensures race { (shows_state : Bool) → command_of (map string_bytes words.now) ≡ RaceOf shows_state
        → (input : List ℕ) → (S.input source.old).remaining ≡ Some input
        → RaceLeaves (check_run shows_state input (S.input source.old) (S.input source.new))
        result (K.output sink.old).contents (K.output sink.new).contents
        (Rose (K.output sink.old).faults (K.output sink.new).faults)
        ⊎ (Said Status.NoMemory result (K.output sink.old).contents (K.output sink.new).contents
        memory_fault_text (Rose (K.output sink.old).faults (K.output sink.new).faults)
        × (source.new ≡ source.old)) }
    ensures race_stopped { (shows_state : Bool) → command_of (map string_bytes words.now) ≡ RaceOf shows_state
        → (input : List ℕ) → (S.input source.old).remaining ≡ Some input
        → ((check_after shows_state (take ((S.input source.new).before - (S.input source.old).given) input)).end ≡ None)
        ⊎ (source.new ≡ source.old) }
    ensures race_alone { (shows_state : Bool) → command_of (map string_bytes words.now) ≡ RaceOf shows_state
        → (input : List ℕ) → (S.input source.old).remaining ≡ Some input
        → (trace : TraceRead) → (check shows_state input).end ≡ Whole trace → trace.opening.cpus ≡ 1
        → AloneLeaves (check_run shows_state input (S.input source.old) (S.input source.new))
        (replay shows_state input) result (K.output sink.old).contents (K.output sink.new).contents
        (Rose (K.output sink.old).faults (K.output sink.new).faults)
        ⊎ (Said Status.NoMemory result (K.output sink.old).contents (K.output sink.new).contents
        memory_fault_text (Rose (K.output sink.old).faults (K.output sink.new).faults)
        × (source.new ≡ source.old)) }
{
    run(rt, alloc, words, source, sink, gate)
}
