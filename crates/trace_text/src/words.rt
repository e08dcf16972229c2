//! The words of a line, read one after the other, and the numbers that they spell.
ghost use Rattle.std.specs.Prelude.{
  ◌≡◌,
  ℕ,
  ◌+◌,
  ◌-◌,
  ◌<◌,
  ◌≤◌,
  ◌==◌,
  not,
  true,
  List,
  [],
  ◌∷◌,
  length,
  Option,
  Some,
  None,
  Ok,
  OnSome,
  IfSome,
  IfNone,
  IsTrue,
  MatchOption,
};
ghost use Rattle.std.specs.Bool.{OnTrue, OnFalse};
ghost use Rattle.std.specs.List.{list_all};
ghost use Rattle.trace_text.specs.Tokens.{
  words_of,
  first,
  rest,
  starts,
  decimal_past,
  dec,
  hex,
  byte,
  dec_within,
  dec_of_bits,
  hex_of_bits,
  khz,
};
ghost use Rattle.trace_text.specs.Rows.{last};
ghost use Rattle.board_types.specs.Legal.{is_port};

use crate::bytes::{
    Number, decimal_at, end_of_word, hexadecimal_at, is_zero, one_digit_at, port_at, spelling_at,
    two_decimals_at, two_digits_at,
};
use memchr::memchr;
use reply_text::Reason;
use std::marker::Model;

/// The words of a line that are still to be read. They are cut by single spaces.
#[derive(Drop)]
pub(crate) struct Words<'a> {
    line: &'a [u8],
    at: usize,
}

impl<'a> Model for Words<'a> {
    ghost use Rattle.std.specs.Prelude.{ℕ, ◌+◌, ◌≤◌, List, length};
    ghost use Rattle.trace_text.specs.private.Spelled.{words_from};

    ghost Value = { List (List ℕ) };

    ghost view = { λ w. words_from w.at w.line.now };

    ghost invariant = { λ w. w.at ≤ length w.line.now + 1 };
}

impl<'a> Words<'a> {
    ghost use Rattle.trace_text.specs.private.Spelled.{number_of, begins, shortened};
    ghost use Rattle.trace_text.specs.private.Groups.{IsInitial};

    /// All words of a line.
    pub(crate) fn new(line: &'a [u8]) -> Words<'a>
        ensures { result ≡ words_of line.now }
    {
        Words { line, at: 0 }
    }

    /// The same words again.
    #[inline(always)]
    pub(crate) fn again(&self) -> Words<'a>
        ensures { result ≡ self.now }
    {
        Words {
            line: self.line,
            at: self.at,
        }
    }

    /// Whether no word is left; else the line is out of form.
    #[inline(always)]
    pub(crate) fn end(&self) -> Result<(), Reason>
        ensures { result ≡ last (Ok tt) self.now }
    {
        if self.at > self.line.len() {
            Ok(())
        } else {
            Err(Reason::Form)
        }
    }

    /// The bytes of the words that are left, if there are some.
    #[inline(always)]
    pub(crate) fn left(&self) -> Option<&'a [u8]>
        ensures { MatchOption result (self.now ≡ []) (λ left. self.now ≡ words_of left.now) }
    {
        if self.at > self.line.len() {
            return None;
        }
        Some(&self.line[self.at..])
    }

    /// The next word as it is.
    pub(crate) fn word(&mut self) -> Option<&'a [u8]>
        ensures { MatchOption result (self.old ≡ []) (λ w. self.old ≡ w.now ∷ self.new) }
    {
        if self.at > self.line.len() {
            return None;
        }
        let left = &self.line[self.at..];
        let count = memchr(b' ', left).unwrap_or(left.len());
        self.at = self.at + count + 1;
        Some(&left[..count])
    }

    /// The first byte of the next word, by which words that begin with another are ruled out.
    #[inline(always)]
    pub(crate) fn initial(&self) -> u8
        ensures { IsInitial result self.now }
    {
        if self.at < self.line.len() {
            self.line[self.at]
        } else {
            0
        }
    }

    /// Goes past the next word if it is this one, which has no space.
    #[inline(always)]
    pub(crate) fn takes(&mut self, name: &[u8]) -> bool
        requires { IsTrue (list_all (λ b. not (b == 32)) name.now) }
        ensures found { result ≡ starts name.now self.old }
        ensures past { OnTrue result (self.new ≡ rest self.old) }
        ensures still { OnFalse result (self.new ≡ self.old) }
    {
        match end_of_word(self.line, self.at, name) {
            Some(end) => {
                self.at = end;
                true
            }
            None => false,
        }
    }

    /// Goes past the next word, if it is a number in this base. It is read apart from where it is called.
    #[inline(always)]
    fn number_apart(&mut self, base: u64) -> Option<Number>
        requires least { 2 ≤ base }
        requires most { base ≤ 16 }
        ensures value { result ≡ first (number_of base) self.old }
        ensures past { OnSome result (self.new ≡ rest self.old) }
    {
        let at = self.at;
        if at > self.line.len() {
            return None;
        }
        let spelling = spelling_at(self.line, at, base)?;
        self.at = spelling.end + 1;
        Some(Number {
            value: spelling.value,
            digits: spelling.end - at,
            zero: is_zero(self.line, at, spelling.end),
        })
    }

    /// The next word as a decimal digit; None where it is anything else, and then it stays.
    #[inline(always)]
    pub(crate) fn one_digit(&mut self) -> Option<u64>
        ensures value { IfSome result (λ n. dec self.old ≡ Some n) }
        ensures past { OnSome result (self.new ≡ rest self.old) }
        ensures still { IfNone result (self.new ≡ self.old) }
    {
        let n = one_digit_at(self.line, self.at)?;
        self.at += 2;
        Some(n)
    }

    /// The next word as a DEC, which most likely has one digit or two.
    #[inline(always)]
    pub(crate) fn short_dec(&mut self) -> Option<u64>
        ensures value { result ≡ dec self.old }
        ensures past { OnSome result (self.new ≡ rest self.old) }
    {
        match self.usual_dec() {
            Some(n) => Some(n),
            None => self.dec_apart(),
        }
    }

    /// The next word as a DEC of two digits; None where it is anything else, and then it stays.
    #[inline(always)]
    fn two_decimals(&mut self) -> Option<u64>
        ensures value { IfSome result (λ n. dec self.old ≡ Some n) }
        ensures past { OnSome result (self.new ≡ rest self.old) }
        ensures still { IfNone result (self.new ≡ self.old) }
    {
        let n = two_decimals_at(self.line, self.at)?;
        self.at += 3;
        Some(n)
    }

    /// The next word as a DEC of at most 16 digits, most likely of many; None also where it is another DEC.
    #[inline(always)]
    pub(crate) fn many_digits(&mut self) -> Option<u64>
        ensures value { IfSome result (λ n. dec self.old ≡ Some n) }
        ensures past { OnSome result (self.new ≡ rest self.old) }
        ensures still { IfNone result (self.new ≡ self.old) }
    {
        let spelling = decimal_at(self.line, self.at)?;
        self.at = spelling.end + 1;
        Some(spelling.value)
    }

    /// The next word as a DEC of one digit or two, as that of a processor has; None also where it is another DEC.
    #[inline(always)]
    pub(crate) fn usual_dec(&mut self) -> Option<u64>
        ensures value { IfSome result (λ n. dec self.old ≡ Some n) }
        ensures past { OnSome result (self.new ≡ rest self.old) }
        ensures still { IfNone result (self.new ≡ self.old) }
    {
        match self.one_digit() {
            Some(digit) => Some(digit),
            None => self.two_decimals(),
        }
    }

    /// The next two words as DECs, a processor and a counter; None also for other DECs.
    #[inline(always)]
    pub(crate) fn cpu_and_counter(&mut self) -> Option<(u64, u64)>
        ensures value { IfSome result (λ p. (dec self.old ≡ Some p.0) × (dec (rest self.old) ≡ Some p.1)) }
        ensures past { OnSome result (self.new ≡ rest (rest self.old)) }
    {
        let cpu = self.usual_dec()?;
        let counter = self.many_digits()?;
        Some((cpu, counter))
    }

    /// The next word as two hexadecimal digits; None where it is anything else, and then it stays.
    #[inline(always)]
    pub(crate) fn two_digits(&mut self) -> Option<u8>
        ensures byte { IfSome result (λ n. byte self.old ≡ Some n) }
        ensures hex { IfSome result (λ n. hex self.old ≡ Some n) }
        ensures past { OnSome result (self.new ≡ rest self.old) }
        ensures still { IfNone result (self.new ≡ self.old) }
    {
        let n = two_digits_at(self.line, self.at)?;
        self.at += 3;
        Some(n)
    }

    /// The next word as the two digits of a port that the board has; None for any other word.
    #[inline(always)]
    pub(crate) fn usual_port(&mut self) -> Option<u8>
        ensures hex { IfSome result (λ n. hex self.old ≡ Some n) }
        ensures port { IfSome result (λ n. is_port n ≡ true) }
        ensures past { OnSome result (self.new ≡ rest self.old) }
    {
        let n = port_at(self.line, self.at)?;
        self.at += 3;
        Some(n)
    }

    /// The next word as a DEC, which most likely has many digits.
    #[inline(always)]
    pub(crate) fn dec(&mut self) -> Option<u64>
        ensures value { result ≡ dec self.old }
        ensures past { OnSome result (self.new ≡ rest self.old) }
    {
        match self.many_digits() {
            Some(n) => Some(n),
            None => self.dec_apart(),
        }
    }

    /// The same, apart from where it is called.
    #[inline(always)]
    fn dec_apart(&mut self) -> Option<u64>
        ensures value { result ≡ dec self.old }
        ensures past { OnSome result (self.new ≡ rest self.old) }
    {
        self.number_apart(10)?.decimal()
    }

    /// The next word as a DEC after these letters, which have no space.
    pub(crate) fn dec_past(&mut self, letters: &[u8]) -> Option<u64>
        requires { IsTrue (list_all (λ b. not (b == 32)) letters.now) }
        ensures value { result ≡ first (decimal_past letters.now) self.old }
        ensures past { OnSome result (self.new ≡ rest self.old) }
    {
        if !self.skips(letters) {
            return None;
        }
        self.dec()
    }

    /// Goes past letters that the next word begins with, if it does.
    fn skips(&mut self, letters: &[u8]) -> bool
        requires { IsTrue (list_all (λ b. not (b == 32)) letters.now) }
        ensures found { result ≡ begins letters.now self.old }
        ensures past { OnTrue result (self.new ≡ shortened (length letters.now) self.old) }
    {
        if self.at > self.line.len() {
            return false;
        }
        if !self.line[self.at..].starts_with(letters) {
            return false;
        }
        self.at += letters.len();
        true
    }

    /// The next word as a HEX of 1 to 16 digits; None for any other word.
    #[inline(always)]
    pub(crate) fn usual_hex(&mut self) -> Option<u64>
        ensures value { IfSome result (λ n. hex self.old ≡ Some n) }
        ensures past { OnSome result (self.new ≡ rest self.old) }
        ensures still { IfNone result (self.new ≡ self.old) }
    {
        let spelling = hexadecimal_at(self.line, self.at)?;
        self.at = spelling.end + 1;
        Some(spelling.value)
    }

    /// The next word as a HEX.
    #[inline(always)]
    pub(crate) fn hex(&mut self) -> Option<u64>
        ensures value { result ≡ hex self.old }
        ensures past { OnSome result (self.new ≡ rest self.old) }
    {
        match self.usual_hex() {
            Some(n) => Some(n),
            None => self.hex_apart(),
        }
    }

    /// The same, apart from where it is called.
    #[inline(always)]
    fn hex_apart(&mut self) -> Option<u64>
        ensures value { result ≡ hex self.old }
        ensures past { OnSome result (self.new ≡ rest self.old) }
    {
        self.number_apart(16)?.hexadecimal(16)
    }

    /// The next word as a BYTE.
    #[inline(always)]
    pub(crate) fn byte(&mut self) -> Option<u8>
        ensures value { result ≡ byte self.old }
        ensures past { OnSome result (self.new ≡ rest self.old) }
    {
        match self.two_digits() {
            Some(byte) => Some(byte),
            None => self.byte_apart(),
        }
    }

    /// The same, apart from where it is called.
    #[inline(always)]
    fn byte_apart(&mut self) -> Option<u8>
        ensures value { result ≡ byte self.old }
        ensures past { OnSome result (self.new ≡ rest self.old) }
    {
        let byte = self.number_apart(16)?.hexadecimal(2)?;
        Some(byte as u8)
    }

    /// The next word as a DEC within these bounds.
    pub(crate) fn dec_within(&mut self, least: u64, most: u64) -> Option<u64>
        ensures value { result ≡ dec_within least most self.old }
        ensures past { OnSome result (self.new ≡ rest self.old) }
        ensures least { IfSome result (λ n. least ≤ n) }
        ensures most { IfSome result (λ n. n ≤ most) }
    {
        let n = self.dec()?;
        if least <= n && n <= most {
            Some(n)
        } else {
            None
        }
    }

    /// The next word as a KHZ.
    pub(crate) fn khz(&mut self) -> Option<u64>
        ensures value { result ≡ khz self.old }
        ensures past { OnSome result (self.new ≡ rest self.old) }
        ensures least { IfSome result (λ n. 100000 ≤ n) }
        ensures most { IfSome result (λ n. n ≤ 10000000) }
    {
        self.dec_within(100_000, 10_000_000)
    }

    /// The next word as a DEC of 8 bits.
    #[inline(always)]
    pub(crate) fn dec8(&mut self) -> Option<u8>
        ensures value { result ≡ dec_of_bits 8 self.old }
        ensures past { OnSome result (self.new ≡ rest self.old) }
    {
        let n = self.short_dec()?;
        if n < 0x100 { Some(n as u8) } else { None }
    }

    /// The next word as a HEX of 8 bits.
    #[inline(always)]
    pub(crate) fn hex8(&mut self) -> Option<u8>
        ensures value { result ≡ hex_of_bits 8 self.old }
        ensures past { OnSome result (self.new ≡ rest self.old) }
    {
        if let Some(n) = self.two_digits() {
            return Some(n);
        }
        let n = self.hex_apart()?;
        if n < 0x100 { Some(n as u8) } else { None }
    }

    /// The next word as a HEX of 16 bits.
    #[inline(always)]
    pub(crate) fn hex16(&mut self) -> Option<u16>
        ensures value { result ≡ hex_of_bits 16 self.old }
        ensures past { OnSome result (self.new ≡ rest self.old) }
    {
        let n = self.hex()?;
        if n < 0x1_0000 { Some(n as u16) } else { None }
    }

    /// The next word as a HEX of 32 bits.
    #[inline(always)]
    pub(crate) fn hex32(&mut self) -> Option<u32>
        ensures value { result ≡ hex_of_bits 32 self.old }
        ensures past { OnSome result (self.new ≡ rest self.old) }
    {
        let n = self.hex()?;
        if n < 0x1_0000_0000 {
            Some(n as u32)
        } else {
            None
        }
    }
}
