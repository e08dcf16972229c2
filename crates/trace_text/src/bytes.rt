//! A line byte by byte: the number at a place, and whether a word is there.
ghost use Rattle.std.specs.Prelude.{
  ◌≡◌,
  ◌≢◌,
  ◌+◌,
  ◌-◌,
  ◌*◌,
  ◌^◌,
  ◌<◌,
  ◌≤◌,
  ◌==◌,
  ◌&&◌,
  nat_lt,
  slice_index,
  drop,
  length,
  Option,
  Some,
  None,
  IfSome,
  MatchOption,
  true,
};
ghost use Rattle.std.specs.Bool.{OnTrue};
ghost use Rattle.std.specs.Char.{digit_value};
ghost use Rattle.std.specs.Option.{SomeIff};
ghost use Rattle.board_types.specs.Legal.{is_port};
ghost use Rattle.trace_text.specs.private.Spelled.{spelled, after_word, words_from, AreDigits, Spells};

use crate::digits::{Digits, eight_digits_at, long_number_apart};

/// What a word spells.
#[derive(Clone, Copy)]
pub(crate) struct Number {
    /// The number.
    pub(crate) value: u64,
    /// How many digits it has.
    pub(crate) digits: usize,
    /// Whether the first of them is a zero.
    pub(crate) zero: bool,
}

impl Number {
    ghost use Rattle.trace_text.specs.private.Spelled.{decimal_of, hex_of};

    /// A number without leading zeros.
    #[inline(always)]
    pub(crate) fn decimal(self) -> Option<u64>
        ensures { result ≡ decimal_of self }
    {
        if self.digits == 1 {
            return Some(self.value);
        }
        if self.digits == 0 || self.zero {
            return None;
        }
        Some(self.value)
    }

    /// A number of 1 to that many digits.
    #[inline(always)]
    pub(crate) fn hexadecimal(self, most: usize) -> Option<u64>
        ensures { result ≡ hex_of most self }
    {
        if self.digits == 0 || self.digits > most {
            return None;
        }
        Some(self.value)
    }
}

/// A number in a line, and where it ends.
#[derive(Clone, Copy)]
pub(crate) struct Spelling {
    pub(crate) value: u64,
    pub(crate) end: usize,
}

/// No number.
pub(crate) const NO_SPELLING: Spelling = Spelling { value: 0, end: 0 };

/// How many digits of a long number are read without a test of the line's end.
const MANY_DIGITS: usize = 12;

/// How many digits of a base of at most 16 spell a number below 2^64, whichever they are.
const DIGITS_THAT_FIT: usize = 16;

/// The value of each byte as a hexadecimal digit, of either case; 16 where it is none.
static HEX_VALUES: [u8; 256] = [
    16, 16, 16, 16, 16, 16, 16, 16, 16, 16, 16, 16, 16, 16, 16, 16, 16, 16, 16, 16, 16, 16, 16, 16,
    16, 16, 16, 16, 16, 16, 16, 16, 16, 16, 16, 16, 16, 16, 16, 16, 16, 16, 16, 16, 16, 16, 16, 16,
    0, 1, 2, 3, 4, 5, 6, 7, 8, 9, 16, 16, 16, 16, 16, 16, 16, 10, 11, 12, 13, 14, 15, 16, 16, 16,
    16, 16, 16, 16, 16, 16, 16, 16, 16, 16, 16, 16, 16, 16, 16, 16, 16, 16, 16, 16, 16, 16, 16, 10,
    11, 12, 13, 14, 15, 16, 16, 16, 16, 16, 16, 16, 16, 16, 16, 16, 16, 16, 16, 16, 16, 16, 16, 16,
    16, 16, 16, 16, 16, 16, 16, 16, 16, 16, 16, 16, 16, 16, 16, 16, 16, 16, 16, 16, 16, 16, 16, 16,
    16, 16, 16, 16, 16, 16, 16, 16, 16, 16, 16, 16, 16, 16, 16, 16, 16, 16, 16, 16, 16, 16, 16, 16,
    16, 16, 16, 16, 16, 16, 16, 16, 16, 16, 16, 16, 16, 16, 16, 16, 16, 16, 16, 16, 16, 16, 16, 16,
    16, 16, 16, 16, 16, 16, 16, 16, 16, 16, 16, 16, 16, 16, 16, 16, 16, 16, 16, 16, 16, 16, 16, 16,
    16, 16, 16, 16, 16, 16, 16, 16, 16, 16, 16, 16, 16, 16, 16, 16, 16, 16, 16, 16, 16, 16, 16, 16,
    16, 16, 16, 16, 16, 16, 16, 16, 16, 16, 16, 16, 16, 16,
];

/// The value of a byte as a decimal digit; 10 or more where it is none.
#[inline(always)]
fn decimal_digit_of(byte: u8) -> u64
    ensures digit { result < 10 → digit_value byte ≡ result }
    ensures none { 10 ≤ result → 10 ≤ digit_value byte }
{
    u64::from(byte).wrapping_sub(48)
}

/// The value of a byte as a digit, of either case; 16 where it is no digit of a base of at most 16.
#[inline(always)]
fn digit_of(byte: u8) -> u64
    ensures digit { result < 16 → digit_value byte ≡ result }
    ensures none { 16 ≤ result → 16 ≤ digit_value byte }
{
    u64::from(HEX_VALUES[byte as usize])
}

/// The value of a byte as a digit of a base, of either case; the base or more where it is none.
#[inline(always)]
fn digit_in(byte: u8, base: u64) -> u64
    requires { base ≤ 16 }
    ensures digit { result < base → digit_value byte ≡ result }
    ensures none { base ≤ result → base ≤ digit_value byte }
{
    if base == 10 {
        decimal_digit_of(byte)
    } else {
        digit_of(byte)
    }
}

/// A number with one digit more.
#[inline(always)]
fn with_digit(n: u64, base: u64, digit: u64) -> u64
    requires { n * base + digit < 18446744073709551616 }
    ensures { result ≡ n * base + digit }
{
    n * base + digit
}

/// A number with one digit more, if it is below 2^64.
fn pushed(n: u64, base: u64, digit: u64) -> Option<u64>
    ensures { SomeIff result (n * base + digit < 18446744073709551616) (n * base + digit) }
{
    n.checked_mul(base)?.checked_add(digit)
}

/// The number in a base at a place of a line, up to the next space or the line's end. It is apart from where it is
/// called: most words are read by the functions below.
#[inline(never)]
pub(crate) fn spelling_at(line: &[u8], at: usize, base: u64) -> Option<Spelling>
    requires least { 2 ≤ base }
    requires most { base ≤ 16 }
    requires within { at ≤ length line.now }
    ensures { MatchOption result (spelled base 0 0 (drop at line.now) ≡ None)
        (λ s. (at ≤ s.end) × (s.end ≤ length line.now) × Spells base line.now at s.end s.value) }
{
    let mut n = 0;
    for i in at..line.len() {
        let byte = line[i];
        if byte == b' ' {
            return Some(Spelling { value: n, end: i });
        }
        let digit = digit_in(byte, base);
        if digit >= base {
            return None;
        }
        n = pushed(n, base, digit)?;
    }
    Some(Spelling {
        value: n,
        end: line.len(),
    })
}

/// The number in a base at a place of a line, if it has at most 16 digits, where those before `from` were
/// read, and spelled `read`; None for any other word.
#[inline(always)]
fn short_spelling(line: &[u8], at: usize, from: usize, base: u64, read: u64) -> Option<Spelling>
    requires least { 2 ≤ base }
    requires most { base ≤ 16 }
    requires later { at ≤ from }
    requires few { from ≤ at + 16 }
    requires within { from ≤ length line.now }
    requires small { read < 16 ^ (from - at) }
    ensures { IfSome result (λ s. (from ≤ s.end) × (s.end ≤ length line.now) × (s.end ≤ at + 16)
        × (spelled base (from - at) read (drop from line.now) ≡ Some (record {
          count = s.end - at;
          value = s.value;
          left = words_from (s.end + 1) line.now;
        }))) }
{
    let last = line.len().min(at + DIGITS_THAT_FIT);
    let mut n = read;
    for i in from..last {
        let byte = line[i];
        let digit = digit_in(byte, base);
        if digit >= base {
            return if byte == b' ' {
                Some(Spelling { value: n, end: i })
            } else {
                None
            };
        }
        n = with_digit(n, base, digit);
    }
    if !ends_at(line, last) {
        return None;
    }
    Some(Spelling {
        value: n,
        end: last,
    })
}

/// The number at a place of a line, if it is decimal, begins with another digit than zero, and has at most 16
/// digits.
#[inline(always)]
fn few_digits_at(line: &[u8], at: usize) -> Option<Spelling>
    ensures { IfSome result (λ s. (at < s.end) × (s.end ≤ length line.now)
        × (slice_index line.now at ≢ 48) × Spells 10 line.now at s.end s.value) }
{
    let spelling = few_digits_apart(line, at);
    if spelling.end == 0 {
        None
    } else {
        Some(spelling)
    }
}

/// The same, with an end of 0 for no such number. It is apart from where it is called, for numbers of a few digits, and
/// its result is small enough to be given in registers.
#[inline(never)]
fn few_digits_apart(line: &[u8], at: usize) -> Spelling
    ensures { 0 < result.end → (at < result.end) × (result.end ≤ length line.now)
        × (slice_index line.now at ≢ 48) × Spells 10 line.now at result.end result.value }
{
    if at >= line.len() {
        return NO_SPELLING;
    }
    let first = decimal_digit_of(line[at]);
    if first == 0 || first >= 10 {
        return NO_SPELLING;
    }
    match short_spelling(line, at, at + 1, 10, first) {
        Some(spelling) => spelling,
        None => NO_SPELLING,
    }
}

/// The number at a place of a line of which the first eight digits spell `read`, if it has at most 12 digits, or at most
/// 16 in a line that goes on for 16 bytes.
#[inline(always)]
fn after_eight(line: &[u8], at: usize, read: u64) -> Option<Spelling>
    requires within { at + 12 ≤ length line.now }
    requires read { AreDigits line.now at (at + 8) read }
    ensures { IfSome result (λ s. (at < s.end) × (s.end ≤ length line.now)
        × Spells 10 line.now at s.end s.value) }
{
    if line[at + 8] == b' ' {
        return Some(Spelling {
            value: read,
            end: at + 8,
        });
    }
    if line.len() >= at + 16 && decimal_digit_of(line[at + 12]) < 10 {
        let spelling = long_number_apart(line, at, read);
        return if spelling.end == 0 {
            None
        } else {
            Some(spelling)
        };
    }
    let mut n = read;
    for k in 8..MANY_DIGITS {
        let byte = line[at + k];
        let digit = decimal_digit_of(byte);
        if digit >= 10 {
            return if byte == b' ' {
                Some(Spelling {
                    value: n,
                    end: at + k,
                })
            } else {
                None
            };
        }
        n = with_digit(n, 10, digit);
    }
    if ends_at(line, at + MANY_DIGITS) {
        Some(Spelling {
            value: n,
            end: at + MANY_DIGITS,
        })
    } else {
        None
    }
}

/// A number as `few_digits_at` reads it, most likely of many digits: the first of them are read without a test of the
/// line's end. None also for more than 12 of them in a line that ends before 16 bytes.
#[inline(always)]
pub(crate) fn decimal_at(line: &[u8], at: usize) -> Option<Spelling>
    requires { at ≤ length line.now + 1 }
    ensures { IfSome result (λ s. (at < s.end) × (s.end ≤ length line.now)
        × (slice_index line.now at ≢ 48) × Spells 10 line.now at s.end s.value) }
{
    if line.len() < at + MANY_DIGITS {
        return few_digits_at(line, at);
    }
    let first = decimal_digit_of(line[at]);
    if first == 0 || first >= 10 {
        return None;
    }
    let n = match eight_digits_at(line, at) {
        Digits::Eight(n) => n,
        Digits::Fewer(fewer) => {
            return if line[fewer.end] == b' ' {
                Some(fewer)
            } else {
                None
            };
        }
    };
    let spelling = after_eight(line, at, n)?;
    Some(spelling)
}

/// The number at a place of a line, if it has 1 to 16 hexadecimal digits.
#[inline(always)]
pub(crate) fn hexadecimal_at(line: &[u8], at: usize) -> Option<Spelling>
    ensures { IfSome result (λ s. (at < s.end) × (s.end ≤ length line.now) × (s.end ≤ at + 16)
        × Spells 16 line.now at s.end s.value) }
{
    if at >= line.len() {
        return None;
    }
    let first = digit_of(line[at]);
    if first >= 16 {
        return None;
    }
    let spelling = short_spelling(line, at, at + 1, 16, first)?;
    Some(spelling)
}

/// Whether a word that reaches up to a place ends there.
#[inline(always)]
pub(crate) fn ends_at(line: &[u8], at: usize) -> bool
    ensures { OnTrue result (at < length line.now → slice_index line.now at ≡ 32) }
{
    at >= line.len() || line[at] == b' '
}

/// The decimal digit at a place of a line, if a space or the line's end follows.
#[inline(always)]
pub(crate) fn one_digit_at(line: &[u8], at: usize) -> Option<u64>
    requires { at ≤ length line.now + 1 }
    ensures { IfSome result (λ n. (at + 1 ≤ length line.now) × Spells 10 line.now at (at + 1) n) }
{
    if line.len() <= at || !ends_at(line, at + 1) {
        return None;
    }
    let digit = decimal_digit_of(line[at]);
    if digit < 10 { Some(digit) } else { None }
}

/// The number of the two decimal digits at a place of a line, if the first isn't a zero, and a space or the line's end
/// follows.
#[inline(always)]
pub(crate) fn two_decimals_at(line: &[u8], at: usize) -> Option<u64>
    requires { at ≤ length line.now + 1 }
    ensures { IfSome result (λ n. (at + 2 ≤ length line.now) × (slice_index line.now at ≢ 48)
        × Spells 10 line.now at (at + 2) n) }
{
    if line.len() < at + 2 || !ends_at(line, at + 2) {
        return None;
    }
    let high = decimal_digit_of(line[at]);
    let low = decimal_digit_of(line[at + 1]);
    if high == 0 || high >= 10 || low >= 10 {
        return None;
    }
    Some(10 * high + low)
}

/// The byte of the two hexadecimal digits at a place of a line, if a space or the line's end follows.
#[inline(always)]
pub(crate) fn two_digits_at(line: &[u8], at: usize) -> Option<u8>
    requires { at ≤ length line.now + 1 }
    ensures { IfSome result (λ n. (at + 2 ≤ length line.now) × Spells 16 line.now at (at + 2) n) }
{
    if line.len() < at + 2 {
        return None;
    }
    if !ends_at(line, at + 2) {
        return None;
    }
    let high = digit_of(line[at]);
    let low = digit_of(line[at + 1]);
    if high < 16 && low < 16 {
        Some((16 * high + low) as u8)
    } else {
        None
    }
}

/// The port that the two hexadecimal digits at a place of a line name, if the board has it, and a space or the line's
/// end follows. Those of its ports are decimal digits.
#[inline(always)]
pub(crate) fn port_at(line: &[u8], at: usize) -> Option<u8>
    requires { at ≤ length line.now + 1 }
    ensures { IfSome result (λ n. (at + 2 ≤ length line.now) × (is_port n ≡ true)
        × Spells 16 line.now at (at + 2) n) }
{
    if line.len() < at + 2 || !ends_at(line, at + 2) {
        return None;
    }
    let high = line[at];
    let low = line[at + 1];
    if high == b'4' && low >= b'0' && low <= b'3' {
        return Some(low + 0x10);
    }
    if high == b'7' && low >= b'0' && low <= b'1' {
        return Some(low + 0x40);
    }
    if high == b'6' && low == b'1' {
        return Some(0x61);
    }
    None
}

/// Whether the word from a place on has bytes, and the first is a zero.
#[inline(always)]
pub(crate) fn is_zero(line: &[u8], at: usize, end: usize) -> bool
    requires { end ≤ length line.now }
    ensures { result ≡ (nat_lt at end && slice_index line.now at == 48) }
{
    at < end && line[at] == b'0'
}

/// Where the words after this word begin, if it is at a place of a line, up to the next space or the line's end.
#[inline(always)]
pub(crate) fn end_of_word(line: &[u8], at: usize, name: &[u8]) -> Option<usize>
    requires { at ≤ length line.now + 1 }
    ensures { MatchOption result
        ((at ≤ length line.now) → after_word name.now (drop at line.now) ≡ None)
        (λ end. (at ≤ length line.now) × (end ≤ length line.now + 1)
        × (after_word name.now (drop at line.now) ≡ Some (words_from end line.now))) }
{
    if line.len() < at + name.len() {
        return None;
    }
    for i in 0..name.len() {
        if line[at + i] != name[i] {
            return None;
        }
    }
    let end = at + name.len();
    if end < line.len() && line[end] != b' ' {
        return None;
    }
    Some(end + 1)
}
