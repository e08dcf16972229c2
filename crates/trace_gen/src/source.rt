//! Generated traces as sources.
ghost use Rattle.std.specs.Prelude.{◌≡◌, ◌<◌, ◌≤◌, [], length, min, IfOk, IsOk};
ghost use Rattle.board_io.specs.Ends.{IsTaken};
ghost use Rattle.trace_gen.specs.Feed.{input_in};
ghost use Rattle.trace_gen.specs.Text.{gen_text};
ghost use Rattle.trace_gen.specs.declared.generator.TheConstants.{RECORDS_MAX, CPUS_MAX};

use crate::generator::Generator;
use board_io::{Failed, Source};
use byte_log::ByteLog;
use std::marker::Model;

/// A generated trace as a source, which never fails.
#[derive(Drop)]
pub struct GenSource {
    generator: Generator,
    log: ByteLog,
}

impl Model for GenSource {
    ghost use Rattle.std.specs.Prelude.{◌+◌, ◌≤◌, ◌^◌, length};
    ghost use Rattle.byte_log.specs.Calls.{bytes_in};
    ghost use Rattle.trace_gen.specs.Feed.{Feed};

    ghost Value = { Feed };

    ghost view = { λ s. record {
      left = s.generator;
      log = s.log.calls;
    } };

    ghost invariant = { λ s. length (bytes_in s.log.calls) + length s.generator ≤ 2 ^ 24 };
}

impl GenSource {
    /// The trace of a key with so many records, at most 200,000, by so many processors, 1 to 16.
    pub fn new(key: u64, records: u64, cpus: u8) -> GenSource
        requires records { records ≤ RECORDS_MAX }
        requires some_cpu { 0 < cpus }
        requires cpus { cpus ≤ CPUS_MAX }
        ensures { result ≡ record { left = gen_text key records cpus; log = [] } }
    {
        GenSource {
            generator: Generator::new(key, records, cpus),
            log: ByteLog::new(),
        }
    }
}

impl Source for GenSource {
    ghost input = { input_in };

    /// Puts the next bytes at the front of `into`, as many as there are places, and answers how many. It never fails.
    fn take(&mut self, into: &mut [u8]) -> Result<usize, Failed>
        requires { 0 < length into.old }
        ensures taken { IsTaken (input_in self.old) (input_in self.new) result into.new }
        ensures piece { IfOk result (λ n. n ≡ min (length into.old) (length self.old.left)) }
        ensures never { IsOk result }
    {
        let n = self.generator.fill(into);
        self.log.add(into, n);
        Ok(n)
    }
}
