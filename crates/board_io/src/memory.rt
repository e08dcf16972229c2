ghost use Rattle.std.specs.Prelude.{◌≡◌, ◌<◌, ◌≤◌, not, true, [], length, min, drop, IfOk, IsErr, is_ok};
ghost use Rattle.std.specs.Prelude.{vec_len};
ghost use Rattle.byte_log.specs.Calls.{bytes_in};
ghost use Rattle.board_io.specs.Ends.{IsTaken, IsPut};
ghost use Rattle.board_io.specs.Faults.{most_given};
ghost use Rattle.board_io.specs.Memory.{Supply, Store, input_in, output_in, next_call, is_to_fail};
ghost use Rattle.board_io.specs.Memory.{supply_fails, piece_of};

use crate::sink::Sink;
use crate::source::{Failed, MOST_GIVEN, Source};
use byte_log::ByteLog;
use std::alloc::Global;
use std::marker::Model;

/// A source of bytes in memory, which fails at chosen calls, counted from 1.
#[derive(Drop)]
pub struct MemSource {
    bytes: Vec<u8>,
    taken: usize,
    log: ByteLog,
    failing: Vec<u64>,
    largest: usize,
    calls: u64,
}

impl Model for MemSource {
    ghost Value = { Supply };

    ghost view = { λ s. record {
      left = drop s.taken s.bytes.items;
      log = s.log.calls;
      calls = s.calls;
      failing = s.failing.items;
      largest = s.largest;
    } };

    ghost invariant = { λ s.
        (s.taken ≤ vec_len s.bytes) × (s.taken ≤ most_given) × (0 < s.largest)
        × (s.taken ≡ length (bytes_in s.log.calls)) };
}

impl MemSource {
    /// A source of these bytes, in pieces of at most `largest`. The calls whose numbers are in
    /// `failing` fail.
    pub fn new(bytes: Vec<u8>, failing: Vec<u64>, largest: usize) -> MemSource
        requires { 0 < largest }
        ensures { result ≡ record {
          left = bytes.items;
          log = [];
          calls = 0;
          failing = failing.items;
          largest = largest;
        } }
    {
        MemSource {
            bytes,
            taken: 0,
            log: ByteLog::new(),
            failing,
            largest,
            calls: 0,
        }
    }
}

impl Source for MemSource {
    ghost input = { input_in };

    fn take(&mut self, into: &mut [u8]) -> Result<usize, Failed>
        requires { 0 < length into.old }
        ensures taken { IsTaken (input_in self.old) (input_in self.new) result into.new }
        // It fails at the chosen calls, and where it has given the most.
        ensures told { is_ok result ≡ not (supply_fails self.old) }
        ensures piece { IfOk result (λ n. n ≡ piece_of self.old (length into.old)) }
        ensures calls { self.new.calls ≡ next_call self.old.calls }
        ensures same { (self.new.failing ≡ self.old.failing)
            × (self.new.largest ≡ self.old.largest) }
    {
        self.calls = self.calls.saturating_add(1);
        if self.failing.contains(&self.calls) || self.taken == MOST_GIVEN {
            self.log.fail();
            return Err(Failed);
        }
        let left = (self.bytes.len() - self.taken).min(MOST_GIVEN - self.taken);
        let n = into.len().min(self.largest).min(left);
        into[..n].copy_from_slice(&self.bytes[self.taken..self.taken + n]);
        self.log.add(into, n);
        self.taken += n;
        Ok(n)
    }
}

/// A sink in memory, which fails at chosen calls, counted from 1, and where memory runs out.
#[derive(Drop)]
pub struct MemSink {
    bytes: Vec<u8>,
    log: ByteLog,
    failing: Vec<u64>,
    largest: usize,
    calls: u64,
}

impl Model for MemSink {
    ghost Value = { Store };

    ghost view = { λ s. record {
      held = s.bytes.items;
      log = s.log.calls;
      calls = s.calls;
      failing = s.failing.items;
      largest = s.largest;
    } };

    ghost invariant = { λ s. 0 < s.largest };
}

impl MemSink {
    /// An empty sink that takes at most `largest` bytes a call. The calls whose numbers are in
    /// `failing` fail.
    pub fn new(alloc: Global, failing: Vec<u64>, largest: usize) -> MemSink
        requires { 0 < largest }
        ensures { result ≡ record {
          held = [];
          log = [];
          calls = 0;
          failing = failing.items;
          largest = largest;
        } }
    {
        MemSink {
            bytes: Vec::new(alloc),
            log: ByteLog::new(),
            failing,
            largest,
            calls: 0,
        }
    }

    /// What the sink holds.
    pub fn bytes(&self) -> &[u8]
        ensures { result.now ≡ self.now.held }
    {
        self.bytes.as_slice()
    }
}

impl Sink for MemSink {
    ghost output = { output_in };

    fn put(&mut self, piece: &[u8]) -> Result<usize, Failed>
        requires { 0 < length piece.now }
        ensures put { IsPut (output_in self.old) (output_in self.new) result piece.now }
        // It fails at the chosen calls, and else only where memory runs out.
        ensures told { is_to_fail self.old.failing self.old.calls ≡ true → IsErr result }
        ensures piece { IfOk result (λ n. n ≡ min (length piece.now) self.old.largest) }
        ensures calls { self.new.calls ≡ next_call self.old.calls }
        ensures same { (self.new.failing ≡ self.old.failing)
            × (self.new.largest ≡ self.old.largest) }
    {
        self.calls = self.calls.saturating_add(1);
        let n = piece.len().min(self.largest);
        if !self.failing.contains(&self.calls)
            && self.bytes.extend_from_slice(&piece[..n]).is_ok()
        {
            self.log.add(piece, n);
            return Ok(n);
        }
        self.log.fail();
        Err(Failed)
    }
}
