//! What most records begin with: a processor and a counter, as programs write them.
ghost use Rattle.std.specs.Prelude.{◌≡◌, Some, IfSome, false, codes, length, nat_lt};
ghost use Rattle.std.specs.Str.{bytes_eq};
ghost use Rattle.trace_loop.specs.Progress.{limit_of};
ghost use Rattle.trace_text.specs.Lines.{is_skipped};
ghost use Rattle.trace_text.specs.Tokens.{words_of, dec, rest};

use crate::reading::may_be_record;
use crate::words::Words;
use std::marker::Model;

/// A line whose processor and counter were read, and have their usual form. Contracts see the line in it.
#[derive(Drop)]
pub struct Front<'a> {
    line: &'a [u8],
    cpu: u64,
    h: u64,
    /// The bytes after the counter.
    left: &'a [u8],
}

impl<'a> Model for Front<'a> {
    ghost use Rattle.std.specs.Prelude.{ℕ, List};
    ghost use Rattle.trace_text.specs.private.Fronts.{IsFront};

    ghost Value = { List ℕ };

    ghost view = { λ f. f.line.now };

    ghost invariant = { λ f. IsFront f.line.now f.cpu f.h f.left.now };
}

impl<'a> Front<'a> {
    /// The front of a line, if it has one of the usual form: a processor of one digit or two, and a counter of at most 16.
    /// None for any other line, which may be a record too.
    #[inline(always)]
    pub fn of(line: &'a [u8]) -> Option<Front<'a>>
        ensures { IfSome result (λ front. front ≡ line.now) }
    {
        if !may_be_record(line) {
            return None;
        }
        let mut words = Words::new(line);
        let (cpu, h) = words.cpu_and_counter()?;
        let left = words.left()?;
        Some(Front { line, cpu, h, left })
    }

    /// The same front again, for a call that isn't inlined: this one then stays out of memory.
    #[inline(always)]
    pub fn again(&self) -> Front<'a>
        ensures { result ≡ self.now }
    {
        Front {
            line: self.line,
            cpu: self.cpu,
            h: self.h,
            left: self.left,
        }
    }

    /// Its line, which has a record's limit and is none of the other lines.
    #[inline(always)]
    pub fn line(&self) -> &'a [u8]
        ensures line { result.now ≡ self.now }
        ensures within { nat_lt (limit_of self.now) (length self.now) ≡ false }
        ensures words { is_skipped self.now ≡ false }
        ensures record { bytes_eq self.now (codes "end") ≡ false }
    {
        self.line
    }

    /// The processor.
    #[inline(always)]
    pub(crate) fn cpu(&self) -> u64
        ensures { dec (words_of self.now) ≡ Some result }
    {
        self.cpu
    }

    /// The counter.
    #[inline(always)]
    pub(crate) fn counter(&self) -> u64
        ensures { dec (rest (words_of self.now)) ≡ Some result }
    {
        self.h
    }

    /// The bytes after the counter.
    #[inline(always)]
    pub(crate) fn left(&self) -> &'a [u8]
        ensures { rest (rest (words_of self.now)) ≡ words_of result.now }
    {
        self.left
    }
}
