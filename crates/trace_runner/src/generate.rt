//! Generated traces, written out.
ghost use Rattle.command_line.specs.Command.{IsSize};
ghost use Rattle.trace_gen.specs.Text.{gen_text};
ghost use Rattle.trace_loop.specs.Outcome.{IsSaid};

use board_io::{Failed, Sink};
use command_line::Size;
use trace_gen::Generator;
use trace_loop::put_all;
use trace_replay::Status;

/// How many bytes are put at a time.
const PIECE: usize = 4096;

/// Writes the trace of this size. It takes no memory.
pub(crate) fn generate<K: Sink>(size: Size, sink: &mut K) -> Status
    requires { IsSize size }
    ensures { IsSaid Status.SinkFault Status.Ok result (K.output sink.old) (K.output sink.new)
        (gen_text size.key size.records size.cpus) }
{
    let mut generator = Generator::new(size.key, size.records, size.cpus as u8);
    let mut piece = [0; PIECE];
    'pieces: loop {
        let n = generator.fill(&mut piece);
        if n == 0 {
            return Status::Ok;
        }
        match put_all(sink, &piece[..n]) {
            Ok(()) => {}
            Err(Failed) => return Status::SinkFault,
        }
    }
}
