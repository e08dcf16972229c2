//! The records of a phase.
ghost use Rattle.std.specs.Prelude.{◌≡◌, ◌<◌, ◌++◌, [], ◌∷◌, length, map, slice_get, Some, IfSome, OnOk, OnErr};

use clk_units::NoMemory;
use std::alloc::Global;
use std::marker::Model;
use trace_blocks::Record;

/// The records of a phase, in file order. Their processors are in a list of their own, so that a worker passes over those
/// of others without reading them.
#[derive(Drop)]
pub struct RecordList {
    cpus: Vec<u8>,
    records: Vec<Record>,
}

impl Model for RecordList {
    ghost use Rattle.std.specs.Prelude.{◌≡◌, List, map};
    ghost use Rattle.trace_blocks.specs.declared.records.Record.{Record};

    ghost Value = { List Record };

    ghost view = { λ l. l.records.items };

    ghost invariant = { λ l. l.cpus.items ≡ map (λ r. r.cpu) l.records.items };
}

impl RecordList {
    /// No records.
    pub fn new(alloc: Global) -> RecordList
        ensures { result ≡ [] }
    {
        RecordList {
            cpus: Vec::new(alloc),
            records: Vec::new(alloc),
        }
    }

    /// Puts a record after the others. After an `Err` the records are as they were.
    #[inline(always)]
    pub fn push(&mut self, given: &Record) -> Result<(), NoMemory>
        ensures ok { OnOk result (self.new ≡ self.old ++ given.now ∷ []) }
        ensures err { OnErr result (self.new ≡ self.old) }
    {
        let count = self.cpus.len();
        let Ok(()) = self.cpus.push(given.cpu) else {
            return Err(NoMemory);
        };
        let Ok(()) = self.records.push(*given) else {
            self.cpus.truncate(count);
            return Err(NoMemory);
        };
        Ok(())
    }

    /// How many records there are.
    #[inline(always)]
    pub fn len(&self) -> usize
        ensures { result ≡ length self.now }
    {
        self.records.len()
    }

    /// How many records a processor has.
    pub(crate) fn count_of(&self, cpu: u64) -> u64 {
        let mut count = 0u64;
        for own in &self.cpus {
            if u64::from(*own) == cpu {
                count = count.saturating_add(1);
            }
        }
        count
    }

    /// The processor of a record.
    #[inline(always)]
    pub(crate) fn cpu(&self, index: usize) -> u8
        requires { index < length self.now }
        ensures { IfSome (slice_get self.now index) (λ r. result ≡ r.cpu) }
    {
        self.cpus[index]
    }

    /// A record.
    #[inline(always)]
    pub(crate) fn record(&self, index: usize) -> Record
        requires { index < length self.now }
        ensures { slice_get self.now index ≡ Some result }
    {
        self.records[index]
    }
}
