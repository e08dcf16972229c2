//! The lines of a source that is read piece by piece.
ghost use Rattle.std.specs.Prelude.{
  ◌≡◌,
  ◌||◌,
  ◌<◌,
  ◌≤◌,
  ◌+◌,
  ◌-◌,
  ◌^◌,
  [],
  ◌++◌,
  length,
  take,
  drop,
  true,
  false,
  codes,
  IfSome,
  OnSome,
  IfOk,
  OnOk,
  OnErr,
  if◌then◌else◌,
};
ghost use Rattle.std.specs.Str.{bytes_eq};
ghost use Rattle.std.specs.Prelude.{map};
ghost use lib.Lanes.{mask_l};
ghost use Rattle.memchr.specs.Find.{is_byte};
ghost use Rattle.std.specs.Io.KnownBytes.{Consumes, IsAtEnd};
ghost use Rattle.board_io.specs.Faults.{Rose, most_given, AddsGiven, gave_nothing, CountsEnds};
ghost use Rattle.trace_loop.specs.Progress.{limit_of};
ghost use Rattle.trace_loop.specs.Cut.{HasNoEnd};
ghost use Rattle.trace_loop.specs.Found.{IsFound};

use crate::output::append;
use board_io::{Failed, Source};
use clk_units::NoMemory;
use memchr::memchr;
use std::alloc::Global;
use std::marker::Model;
use std::simd::prelude::*;

/// The most bytes that a line has, without its end.
pub const LINE_MAX: usize = 128;

/// The most bytes that a line which begins with `state ` has, without its end.
pub const STATE_LINE_MAX: usize = 200_000;

/// How a line begins that may have more bytes than others.
const STATE: &[u8] = b"state ";

/// How many bytes are taken from the source at a time.
const PIECE: usize = 16384;

/// Where the present line stops in the bytes that are left.
#[derive(Clone, Copy)]
pub(crate) enum Found {
    /// It ends after that many bytes.
    End(usize),
    /// So many bytes make it one byte too long.
    Excess(usize),
    /// It doesn't end in these bytes.
    Nothing,
}

/// The lines of a source that is read piece by piece.
#[derive(Drop)]
pub(crate) struct Lines {
    number: u64,
    piece: [u8; PIECE],
    from: usize,
    to: usize,
    start: usize,
    stop: usize,
    is_joined: bool,
    joined: Vec<u8>,
    kept: Vec<u8>,
}

impl Model for Lines {
    ghost use Rattle.std.specs.Prelude.{◌≤◌, ◌-◌, take, drop, length, if◌then◌else◌};
    ghost use Rattle.trace_loop.specs.Progress.{limit_of};
    ghost use Rattle.trace_loop.specs.Cut.{Cut, HasNoEnd};

    ghost Value = { Cut };

    ghost view = { λ r. record {
      number = r.number;
      line = if r.is_joined then r.joined.items else take (r.stop - r.start) (drop r.start r.piece);
      text = r.kept.items;
      left = take (r.to - r.from) (drop r.from r.piece);
    } };

    ghost invariant = { λ r. (r.from ≤ r.to) × (r.to ≤ 16384) × (r.start ≤ r.stop) × (r.stop ≤ 16384)
        × HasNoEnd r.kept.items × (length r.kept.items ≤ limit_of r.kept.items) };
}

impl Lines {
    ghost use Rattle.trace_loop.specs.Cut.{IsHandedOut, IsLine, IsWhole};

    /// No byte was taken yet.
    pub(crate) fn new(alloc: Global) -> Lines
        ensures { result ≡ record { number = 0; line = []; text = []; left = [] } }
    {
        Lines {
            number: 0,
            piece: [0; PIECE],
            from: 0,
            to: 0,
            start: 0,
            stop: 0,
            is_joined: false,
            joined: Vec::new(alloc),
            kept: Vec::new(alloc),
        }
    }

    /// How many lines were handed out.
    pub(crate) fn number(&self) -> u64
        ensures { result ≡ self.now.number }
    {
        self.number
    }

    /// The line that was handed out last.
    #[inline(always)]
    pub(crate) fn line(&self) -> &[u8]
        ensures { result.now ≡ self.now.line }
    {
        if self.is_joined {
            &self.joined
        } else {
            &self.piece[self.start..self.stop]
        }
    }

    /// What came so far of the line after it.
    pub(crate) fn text(&self) -> &[u8]
        ensures { result.now ≡ self.now.text }
    {
        &self.kept
    }

    /// Goes on to the next line, if one ends in what was taken, or is too long. Most lines are short, and lie whole in a
    /// piece.
    #[inline(always)]
    pub(crate) fn advance(&mut self) -> Result<bool, NoMemory>
        requires room { self.old.number < 2 ^ 63 }
        ensures line { IfOk result (λ found. found ≡ true → IsLine self.old self.new) }
        ensures whole { IfOk result (λ found. found ≡ false → IsWhole self.old self.new) }
        ensures err { OnErr result (0 < length self.old.left) }
    {
        match self.near_end() {
            Some(n) => {
                self.hand_out_slice(n);
                self.skip();
                Ok(true)
            }
            None => self.advance_far(),
        }
    }

    /// The same for any line.
    #[inline(never)]
    fn advance_far(&mut self) -> Result<bool, NoMemory>
        requires room { self.old.number < 2 ^ 63 }
        ensures line { IfOk result (λ found. found ≡ true → IsLine self.old self.new) }
        ensures whole { IfOk result (λ found. found ≡ false → IsWhole self.old self.new) }
        ensures err { OnErr result (0 < length self.old.left) }
    {
        let _ = &self.kept;
        match self.find() {
            Found::End(n) => {
                self.hand_out(n)?;
                self.skip();
                Ok(true)
            }
            Found::Excess(n) => {
                self.hand_out(n)?;
                Ok(true)
            }
            Found::Nothing => {
                self.keep()?;
                Ok(false)
            }
        }
    }

    /// How many bytes the present line has, if it begins with those that are left, and ends in the first 32 of them.
    #[inline(always)]
    fn near_end(&self) -> Option<usize>
        ensures whole { OnSome result (self.now.text ≡ []) }
        ensures end { IfSome result (λ n. IsFound self.now.text self.now.left (Found.End n)) }
    {
        if !self.kept.is_empty() {
            return None;
        }
        let rest = &self.piece[self.from..self.to];
        if rest.len() < 32 {
            return None;
        }
        let ends = ends_in(rest);
        if ends == 0 {
            return None;
        }
        Some(ends.trailing_zeros() as usize)
    }

    /// Where the present line stops in the bytes that are left.
    #[inline(always)]
    fn find(&self) -> Found
        ensures { IsFound self.now.text self.now.left result }
    {
        let rest = &self.piece[self.from..self.to];
        let end = memchr(b'\n', rest);
        let n = end.unwrap_or(rest.len());
        let limit = limit_met(&self.kept, &rest[..n]);
        if self.kept.len() + n > limit {
            return Found::Excess(limit + 1 - self.kept.len());
        }
        match end {
            Some(n) => Found::End(n),
            None => Found::Nothing,
        }
    }

    /// Hands out the present line, of which so many bytes are left.
    #[inline(always)]
    fn hand_out(&mut self, n: usize) -> Result<(), NoMemory>
        requires room { self.old.number < 2 ^ 63 }
        requires there { n ≤ length self.old.left }
        ensures { IsHandedOut self.old self.new n result }
    {
        if self.kept.is_empty() {
            self.hand_out_slice(n);
            Ok(())
        } else {
            self.hand_out_joined(n)
        }
    }

    /// Hands out a line that is in the piece.
    #[inline(always)]
    fn hand_out_slice(&mut self, n: usize)
        requires room { self.old.number < 2 ^ 63 }
        requires there { n ≤ length self.old.left }
        ensures line { self.new.line ≡ take n self.old.left }
        ensures text { self.new.text ≡ self.old.text }
        ensures left { self.new.left ≡ drop n self.old.left }
        ensures number { self.new.number ≡ self.old.number + 1 }
    {
        self.is_joined = false;
        self.start = self.from;
        self.stop = self.from + n;
        self.from = self.stop;
        self.number += 1;
    }

    /// Hands out a line of which earlier pieces had the front.
    #[inline(never)]
    fn hand_out_joined(&mut self, n: usize) -> Result<(), NoMemory>
        requires room { self.old.number < 2 ^ 63 }
        requires there { n ≤ length self.old.left }
        ensures { IsHandedOut self.old self.new n result }
    {
        self.joined.clear();
        append(&mut self.joined, &self.kept)?;
        append_part(&mut self.joined, &self.piece, self.from, self.from + n)?;
        self.is_joined = true;
        self.kept.clear();
        self.from += n;
        self.number += 1;
        Ok(())
    }

    /// Passes over the end of a line.
    #[inline(always)]
    fn skip(&mut self)
        requires { 0 < length self.old.left }
        ensures line { self.new.line ≡ self.old.line }
        ensures text { self.new.text ≡ self.old.text }
        ensures left { self.new.left ≡ drop 1 self.old.left }
        ensures number { self.new.number ≡ self.old.number }
    {
        self.from += 1;
    }

    /// Keeps the bytes that are left, in which the present line doesn't end.
    #[inline(never)]
    fn keep(&mut self) -> Result<(), NoMemory>
        requires in_line { HasNoEnd self.old.left }
        requires short { length self.old.text + length self.old.left
            ≤ limit_of (self.old.text ++ self.old.left) }
        ensures text { OnOk result (self.new.text ≡ self.old.text ++ self.old.left) }
        ensures left { OnOk result (self.new.left ≡ []) }
        ensures number { OnOk result (self.new.number ≡ self.old.number) }
        ensures err { OnErr result (0 < length self.old.left) }
    {
        if self.from == self.to {
            return Ok(());
        }
        append_part(&mut self.kept, &self.piece, self.from, self.to)?;
        self.from = self.to;
        Ok(())
    }

    /// Takes a piece from the source, where no byte is left.
    pub(crate) fn refill<S: Source>(&mut self, source: &mut S) -> Result<usize, Failed>
        requires { self.old.left ≡ [] }
        ensures given { AddsGiven (S.input source.old).given (S.input source.new).given result }
        ensures limit { OnOk result ((S.input source.new).given ≤ most_given) }
        ensures before { (S.input source.new).before ≡ (S.input source.old).given }
        ensures done { (S.input source.new).done ≡ ((S.input source.old).done || gave_nothing result) }
        ensures late { (S.input source.new).late ≡ ((S.input source.old).late || (S.input source.old).done) }
        ensures count { IfOk result (λ n. length self.new.left ≡ n) }
        ensures bytes { OnOk result
            (Consumes (S.input source.old).remaining (S.input source.new).remaining self.new.left) }
        ensures end { IfOk result (λ n. n ≡ 0 → IsAtEnd (S.input source.new).remaining) }
        ensures read { OnOk result ((S.input source.new).read ≡ (S.input source.old).read ++ self.new.left) }
        ensures kept { OnErr result ((S.input source.new).read ≡ (S.input source.old).read) }
        ensures ends { CountsEnds (S.input source.old).ends (S.input source.new).ends result }
        ensures well { OnOk result ((S.input source.new).faults ≡ (S.input source.old).faults) }
        ensures failed { OnErr result (Rose (S.input source.old).faults (S.input source.new).faults) }
        ensures text { self.new.text ≡ self.old.text }
        ensures number { self.new.number ≡ self.old.number }
    {
        self.from = 0;
        self.to = 0;
        let n = source.take(&mut self.piece)?;
        self.to = n;
        Ok(n)
    }
}

/// Appends a part of a piece. After an `Err` the text is as it was.
fn append_part(out: &mut Vec<u8>, piece: &[u8], from: usize, to: usize) -> Result<(), NoMemory>
    requires order { from ≤ to }
    requires within { to ≤ length piece.now }
    ensures ok { OnOk result
        (out.new.items ≡ out.old.items ++ take (to - from) (drop from piece.now)) }
    ensures err { OnErr result (out.new.items ≡ out.old.items) }
{
    append(out, &piece[from..to])
}

/// Which of the first 32 bytes are ends of lines, a bit each.
#[inline(always)]
fn ends_in(rest: &[u8]) -> u64
    requires { 32 ≤ length rest.now }
    ensures { result ≡ mask_l (map (is_byte 10) (take 32 rest.now)) }
{
    u8x32::from_slice(rest)
        .simd_eq(u8x32::splat(b'\n'))
        .to_bitmask()
}

/// How many bytes a line may have without its end, by how it begins.
pub fn limit_of(text: &[u8]) -> usize
    ensures { result ≡ limit_of text.now }
{
    if starts_with(text, STATE) {
        STATE_LINE_MAX
    } else {
        LINE_MAX
    }
}

/// A limit that a line is over if it is over its own, of which an earlier piece had the front. Most lines are within the
/// least limit, and then how they begin isn't looked at.
#[inline(always)]
fn limit_met(kept: &[u8], rest: &[u8]) -> usize
    ensures least { result ≤ limit_of (kept.now ++ rest.now) }
    ensures over { result < length kept.now + length rest.now
        → result ≡ limit_of (kept.now ++ rest.now) }
{
    if kept.len() + rest.len() <= LINE_MAX {
        return LINE_MAX;
    }
    limit_across(kept, rest)
}

/// How many bytes a line may have without its end, of which an earlier piece had the front.
#[inline(never)]
fn limit_across(kept: &[u8], rest: &[u8]) -> usize
    ensures { result ≡ limit_of (kept.now ++ rest.now) }
{
    if kept.is_empty() {
        return limit_of(rest);
    }
    if kept.len() >= STATE.len() {
        return limit_of(kept);
    }
    if starts_across(kept, rest) {
        STATE_LINE_MAX
    } else {
        LINE_MAX
    }
}

/// Whether a line of which an earlier piece had the front is one of those that may have more bytes.
fn starts_across(kept: &[u8], rest: &[u8]) -> bool
    requires { length kept.now ≤ 6 }
    ensures { result ≡ bytes_eq (take 6 (kept.now ++ rest.now)) (codes "state ") }
{
    starts_with(STATE, kept) && starts_with(rest, &STATE[kept.len()..])
}

/// Whether a text begins with another.
fn starts_with(text: &[u8], front: &[u8]) -> bool
    ensures { result ≡ bytes_eq (take (length front.now) text.now) front.now }
{
    text.len() >= front.len() && &text[..front.len()] == front
}
