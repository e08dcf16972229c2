//! A line, which is written from its last byte to its first, and handed out from its first to its last.
ghost use Rattle.std.specs.Prelude.{
  ◌≡◌,
  ◌+◌,
  ◌<◌,
  ◌≤◌,
  ◌↔◌,
  ◌++◌,
  [],
  length,
  min,
  take,
  drop,
  decimal,
  IsTrue,
};
ghost use Rattle.std.specs.Char.{digit_char};
ghost use Rattle.trace_gen.specs.Text.{two_digits};
ghost use Rattle.trace_gen.specs.declared.piece.TheConstants.{LONGEST};

use itoa::write_digits;
use std::marker::Model;

/// The most bytes that a piece has.
pub(crate) const LONGEST: usize = 64;

/// A line, or what is left of one that is handed out.
#[derive(Drop)]
pub(crate) struct Piece {
    bytes: [u8; LONGEST],
    start: usize,
}

impl Model for Piece {
    ghost use Rattle.std.specs.Prelude.{ℕ, ◌≤◌, List, drop};
    ghost use Rattle.trace_gen.specs.declared.piece.TheConstants.{LONGEST};

    ghost Value = { List ℕ };

    ghost view = { λ p. drop p.start p.bytes };

    ghost invariant = { λ p. p.start ≤ LONGEST };
}

impl Piece {
    /// Nothing.
    pub(crate) fn empty() -> Piece
        ensures { result ≡ [] }
    {
        Piece {
            bytes: [0; LONGEST],
            start: LONGEST,
        }
    }

    /// A text.
    pub(crate) fn of(text: &[u8]) -> Piece
        requires { length text.now ≤ LONGEST }
        ensures { result ≡ text.now }
    {
        let mut piece = Piece::empty();
        piece.text(text);
        piece
    }

    /// Whether it has no byte.
    pub(crate) fn is_empty(&self) -> bool
        ensures { IsTrue result ↔ (self.now ≡ []) }
    {
        self.start == LONGEST
    }

    /// A text in front.
    pub(crate) fn text(&mut self, text: &[u8])
        requires { length self.old + length text.now ≤ LONGEST }
        ensures value { self.new ≡ text.now ++ self.old }
        ensures len { length self.new ≡ length self.old + length text.now }
    {
        let end = self.start;
        self.start = end - text.len();
        self.bytes[self.start..end].copy_from_slice(text);
    }

    /// A number in front.
    pub(crate) fn digits(&mut self, n: u64)
        requires { length self.old + 20 ≤ LONGEST }
        ensures value { self.new ≡ decimal n ++ self.old }
        ensures len { length self.new ≤ length self.old + 20 }
    {
        self.start = write_digits(n, &mut self.bytes, self.start);
    }

    /// A byte in front, as two hexadecimal digits.
    pub(crate) fn hex(&mut self, byte: u8)
        requires { length self.old + 2 ≤ LONGEST }
        ensures value { self.new ≡ two_digits byte ++ self.old }
        ensures len { length self.new ≡ length self.old + 2 }
    {
        self.text(&[hex_digit(byte / 16), hex_digit(byte % 16)]);
    }

    /// Moves as many of its first bytes as there are places to the front of `into`, and answers how many.
    pub(crate) fn give(&mut self, into: &mut [u8]) -> usize
        ensures count { result ≡ min (length into.old) (length self.old) }
        ensures bytes { into.new ≡ take result self.old ++ drop result into.old }
        ensures rest { self.new ≡ drop result self.old }
    {
        let n = into.len().min(LONGEST - self.start);
        into[..n].copy_from_slice(&self.bytes[self.start..self.start + n]);
        self.start += n;
        n
    }
}

/// The lower case hexadecimal digit of a number below 16.
fn hex_digit(n: u8) -> u8
    requires { n < 16 }
    ensures { result ≡ digit_char n }
{
    if n < 10 { b'0' + n } else { b'a' + (n - 10) }
}
