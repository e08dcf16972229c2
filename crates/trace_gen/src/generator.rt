//! Generated traces, piece by piece.
ghost use Rattle.std.specs.Prelude.{◌≡◌, ◌+◌, ◌<◌, ◌≤◌, ◌⊎◌, ◌++◌, [], length, min, take, drop};
ghost use Rattle.trace_gen.specs.Text.{gen_text};
ghost use Rattle.trace_gen.specs.declared.generator.TheConstants.{RECORDS_MAX, CPUS_MAX};

use crate::course::{Course, Stage};
use crate::draws::Draws;
use crate::piece::Piece;
use std::marker::Model;

/// The most records of a generated trace.
pub const RECORDS_MAX: u64 = 200_000;

/// The most processors of a generated trace.
pub const CPUS_MAX: u8 = 16;

/// A generated trace: the bytes of it that are still to come.
#[derive(Drop)]
pub struct Generator {
    piece: Piece,
    course: Course,
}

impl Model for Generator {
    ghost use Rattle.std.specs.Prelude.{ℕ, List, ◌++◌};
    ghost use Rattle.trace_gen.specs.private.Course.{text_after, IsCourse};

    ghost Value = { List ℕ };

    ghost view = { λ g. g.piece ++ text_after g.course };

    ghost invariant = { λ g. IsCourse g.course };
}

impl Generator {
    /// The trace of a key with so many records, at most 200,000, by so many processors, 1 to 16.
    pub fn new(key: u64, records: u64, cpus: u8) -> Generator
        requires records { records ≤ RECORDS_MAX }
        requires some_cpu { 0 < cpus }
        requires cpus { cpus ≤ CPUS_MAX }
        ensures { result ≡ gen_text key records cpus }
    {
        Generator {
            piece: Piece::empty(),
            course: Course {
                stage: Stage::Header,
                cpus,
                enabled: 0,
                left: records,
                draws: Draws::new(key),
            },
        }
    }

    /// Puts the next bytes at the front of `into`, as many as there are places, and answers how many; where it isn't
    /// full, the trace is whole.
    pub fn fill(&mut self, into: &mut [u8]) -> usize
        ensures count { result ≡ min (length into.old) (length self.old) }
        ensures bytes { into.new ≡ take result self.old ++ drop result into.old }
        ensures rest { self.new ≡ drop result self.old }
    {
        let mut put = 0;
        loop {
            let n = self.give(into, put);
            if n == 0 {
                return put;
            }
            put += n;
        }
    }

    /// Puts bytes of one line after the first `put` places.
    fn give(&mut self, into: &mut [u8], put: usize) -> usize
        requires { put ≤ length into.old }
        ensures fits { put + result ≤ length into.old }
        ensures short { result ≤ length self.old }
        ensures some { result ≡ 0 → (self.old ≡ []) ⊎ (put ≡ length into.old) }
        ensures bytes { into.new
            ≡ take put into.old ++ take result self.old ++ drop (put + result) into.old }
        ensures rest { self.new ≡ drop result self.old }
    {
        if self.piece.is_empty() {
            self.piece = self.course.advance();
        }
        self.piece.give(&mut into[put..])
    }
}
