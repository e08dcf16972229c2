//! The end of a line, which is written from its last word to its first.
ghost use Rattle.std.specs.Prelude.{
  ◌≡◌,
  ◌+◌,
  ◌*◌,
  ◌<◌,
  ◌≤◌,
  ◌++◌,
  [],
  ◌∷◌,
  length,
  decimal,
  OnOk,
  OnErr,
  vec_len,
  vec_capacity,
};
ghost use Rattle.std.specs.Fmt.{signed_decimal};
ghost use Rattle.reply_text.specs.Words.{hex_text};
ghost use Rattle.reply_text.specs.declared.tail.TheConstants.{LONGEST};

use crate::digits::{write_byte, write_hex, write_text};
use clk_units::NoMemory;
use itoa::{Buffer, write_digits};
use std::marker::Model;

/// The most bytes that a line without a saved state has.
pub(crate) const LONGEST: usize = 128;

/// The words at the end of a line, each after its space, and the line's end.
#[derive(Drop)]
pub(crate) struct Tail {
    bytes: [u8; LONGEST],
    start: usize,
}

impl Model for Tail {
    ghost use Rattle.std.specs.Prelude.{ℕ, ◌≤◌, List, drop};
    ghost use Rattle.reply_text.specs.declared.tail.TheConstants.{LONGEST};

    ghost Value = { List ℕ };

    ghost view = { λ t. drop t.start t.bytes };

    ghost invariant = { λ t. t.start ≤ LONGEST };
}

impl Tail {
    /// Nothing.
    #[inline(always)]
    pub(crate) fn empty() -> Tail
        ensures { result ≡ [] }
    {
        Tail {
            bytes: [0; LONGEST],
            start: LONGEST,
        }
    }

    /// The end of a line.
    #[inline(always)]
    pub(crate) fn new() -> Tail
        ensures { result ≡ 10 ∷ [] }
    {
        let mut tail = Tail::empty();
        tail.byte(b'\n');
        tail
    }

    /// A byte in front.
    #[inline(always)]
    pub(crate) fn byte(&mut self, byte: u8)
        requires { length self.old < LONGEST }
        ensures value { self.new ≡ byte ∷ self.old }
        ensures len { length self.new ≡ length self.old + 1 }
    {
        self.start = write_byte(byte, &mut self.bytes, self.start);
    }

    /// A text in front.
    #[inline(always)]
    pub(crate) fn text(&mut self, text: &[u8])
        requires { length self.old + length text.now ≤ LONGEST }
        ensures value { self.new ≡ text.now ++ self.old }
        ensures len { length self.new ≡ length self.old + length text.now }
    {
        self.start = write_text(text, &mut self.bytes, self.start);
    }

    /// A number in front.
    #[inline(always)]
    pub(crate) fn digits(&mut self, n: u64)
        requires { length self.old + 20 ≤ LONGEST }
        ensures value { self.new ≡ decimal n ++ self.old }
        ensures len { length self.new ≤ length self.old + 20 }
    {
        self.start = write_digits(n, &mut self.bytes, self.start);
    }

    /// A number below 256 in front.
    #[inline(always)]
    pub(crate) fn small(&mut self, n: u8)
        requires { length self.old + 3 ≤ LONGEST }
        ensures value { self.new ≡ decimal n ++ self.old }
        ensures len { length self.new ≤ length self.old + 3 }
    {
        self.start = write_digits(u64::from(n), &mut self.bytes, self.start);
    }

    /// A word in front, after a space.
    #[inline(always)]
    pub(crate) fn word(&mut self, word: &[u8])
        requires { length self.old + length word.now < LONGEST }
        ensures value { self.new ≡ 32 ∷ word.now ++ self.old }
        ensures len { length self.new ≡ length self.old + length word.now + 1 }
    {
        self.text(word);
        self.byte(b' ');
    }

    /// A number in front, after a space.
    #[inline(always)]
    pub(crate) fn number(&mut self, n: u64)
        requires { length self.old + 20 < LONGEST }
        ensures value { self.new ≡ 32 ∷ decimal n ++ self.old }
        ensures len { length self.new ≤ length self.old + 21 }
    {
        self.digits(n);
        self.byte(b' ');
    }

    /// A number of up to 128 bits in front, after a space.
    pub(crate) fn wide(&mut self, n: u128)
        requires { length self.old + 40 < LONGEST }
        ensures value { self.new ≡ 32 ∷ decimal n ++ self.old }
        ensures len { length self.new ≤ length self.old + 41 }
    {
        let mut buffer = Buffer::new();
        self.word(buffer.format(n).as_bytes());
    }

    /// A number with its sign in front, after a space.
    pub(crate) fn signed(&mut self, n: i8)
        requires { length self.old + 4 < LONGEST }
        ensures value { self.new ≡ 32 ∷ signed_decimal n ++ self.old }
        ensures len { length self.new ≤ length self.old + 5 }
    {
        let mut buffer = Buffer::new();
        self.word(buffer.format(n).as_bytes());
    }

    /// The hexadecimal digits of the last `count` bytes of a number in front, after a space.
    #[inline(always)]
    pub(crate) fn hex(&mut self, n: u64, count: usize)
        requires { length self.old + 2 * count < LONGEST }
        ensures value { self.new ≡ 32 ∷ hex_text (2 * count) n ++ self.old }
        ensures len { length self.new ≡ length self.old + 2 * count + 1 }
    {
        self.start = write_hex(n, count, &mut self.bytes, self.start);
        self.byte(b' ');
    }

    /// Appends what there is to a text.
    #[inline]
    pub(crate) fn append_to(&self, out: &mut Vec<u8>) -> Result<(), NoMemory>
        ensures ok { OnOk result (out.new.items ≡ out.old.items ++ self.now) }
        ensures err { OnErr result (out.new.items ≡ out.old.items) }
        ensures len { OnOk result (vec_len out.new ≡ vec_len out.old + length self.now) }
        ensures full { OnErr result (vec_capacity out.old < vec_len out.old + length self.now) }
        ensures grows { vec_capacity out.old ≤ vec_capacity out.new }
    {
        out.extend_from_slice(&self.bytes[self.start..])
            .map_err(|_| NoMemory)
    }
}
