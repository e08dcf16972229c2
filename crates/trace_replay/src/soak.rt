//! A generated trace that is replayed, of which only a sum is printed.
ghost use Rattle.std.specs.Prelude.{◌≡◌, ◌<◌, ◌≤◌, ◌++◌, take, drop, vec_len, OnOk};
ghost use Rattle.std.specs.Prelude.{OnErr};
ghost use Rattle.board_io.specs.Faults.{Rose};
ghost use Rattle.command_line.specs.Command.{IsSize};
ghost use Rattle.trace_loop.specs.Outcome.{KeepsSink};
ghost use Rattle.trace_replay.specs.Soak.{soak_of, is_edge, edges_in, Soaked};

use crate::replay::Replay;
use crate::status::{Status, Verdict, status_of};
use board_io::Sink;
use clk_units::NoMemory;
use command_line::Size;
use reply_text::soak_line;
use std::alloc::Global;
use trace_gen::GenSource;
use trace_loop::{Answerer, answer_lines};

/// A replay whose edges are counted, and whose lines aren't printed.
#[derive(Drop)]
pub(crate) struct Soak {
    pub(crate) replay: Replay,
    /// How many records were asked for.
    pub(crate) records: u64,
    /// How many edges came; at its type's end it rises no more.
    pub(crate) edges: u64,
}

/// What a soak prints.
#[derive(Clone, Copy)]
pub(crate) struct Sum {
    pub(crate) records: u64,
    pub(crate) edges: u64,
    /// The time, in nanoseconds.
    pub(crate) time: u64,
    /// The greatest clock reading that was told.
    pub(crate) greatest: u64,
}

/// Replays the generated trace of this size, and writes how many edges came, the time and the greatest clock reading
/// after it. It takes nothing from a source.
pub fn run_soak<K: Sink>(alloc: Global, size: Size, sink: &mut K) -> Status
    requires { IsSize size }
    ensures said { Soaked (soak_of size) result (K.output sink.old).contents (K.output sink.new).contents
        (Rose (K.output sink.old).faults (K.output sink.new).faults) }
    ensures sink { KeepsSink Status.SinkFault result (K.output sink.old) (K.output sink.new) }
{
    let mut source = GenSource::new(size.key, size.records, size.cpus as u8);
    let mut soak = Soak {
        replay: Replay::new(false),
        records: size.records,
        edges: 0,
    };
    status_of(answer_lines(alloc, &mut soak, &mut source, sink))
}

/// Whether a line is that of an edge.
fn is_edge(line: &[u8]) -> bool
    ensures { result ≡ is_edge line.now }
{
    line.len() >= 5 && &line[..5] == b"edge ".as_slice()
}

/// How many lines of a text are those of edges.
fn edges_in(text: &[u8]) -> u64
    ensures { result ≡ edges_in text.now }
{
    text.split(|byte| *byte == b'\n')
        .filter(|line| is_edge(line))
        .count() as u64
}

impl Soak {
    ghost use Rattle.board_core.specs.Time.{now_of};

    /// What there is to print now.
    fn sum(&self) -> Sum
        ensures { result ≡ record {
          records = self.now.records;
          edges = self.now.edges;
          time = now_of self.now.replay.board;
          greatest = self.now.replay.board.greatest;
        } }
    {
        Sum {
            records: self.records,
            edges: self.edges,
            time: self.replay.board.state.now(),
            greatest: self.replay.board.state.greatest(),
        }
    }
}

impl Sum {
    ghost use Rattle.reply_text.specs.Soak.{soak_text};
    ghost use Rattle.trace_replay.specs.Soak.{sum_or};

    /// Puts what the end of the trace prints in the place of what the replay printed for it, from `whole` on. After an
    /// `Err` the text ends there.
    fn put(&self, verdict: Verdict, whole: usize, out: &mut Vec<u8>) -> Result<(), NoMemory>
        requires { whole ≤ vec_len out.old }
        ensures printed { OnOk result (out.new.items ≡ take whole out.old.items
            ++ sum_or (drop whole out.old.items) verdict
            (soak_text self.now.records self.now.edges self.now.time self.now.greatest)) }
        ensures err { OnErr result (out.new.items ≡ take whole out.old.items) }
    {
        if let Verdict::Stopped { .. } = verdict {
            return Ok(());
        }
        out.truncate(whole);
        soak_line(self.records, self.edges, self.time, self.greatest, out)
    }
}

impl Answerer<Verdict> for Soak {
    ghost use Rattle.trace_replay.specs.Soak.{soak_answer, soak_closing};
    ghost use Rattle.trace_replay.specs.Soak.{IsSoakReady};

    ghost answer = { soak_answer };

    ghost closing = { soak_closing };

    ghost may = { IsSoakReady };

    #[tactic(auto, unfolding(crate::specs::Soak::soak_answer))]
    fn answer(
        &mut self,
        line: u64,
        text: &[u8],
        out: &mut Vec<u8>,
        end: &mut Option<Verdict>,
    ) -> Result<(), NoMemory> {
        let whole = out.len();
        let sum = self.sum();
        self.replay.answer(line, text, out, end)?;
        match *end {
            None => {
                self.edges = self.edges.saturating_add(edges_in(&out[whole..]));
                out.truncate(whole);
                Ok(())
            }
            Some(verdict) => {
                sum.put(verdict, whole, out)?;
                Ok(())
            }
        }
    }

    fn close(&mut self, line: u64, out: &mut Vec<u8>) -> Result<Verdict, NoMemory> {
        self.replay.close(line, out)
    }
}
