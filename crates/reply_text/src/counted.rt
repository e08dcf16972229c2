//! The lines of replies whose numbers count up.
ghost use Rattle.std.specs.Prelude.{
  ◌≡◌,
  ◌+◌,
  ◌-◌,
  ◌<◌,
  ◌≤◌,
  ◌++◌,
  ◌≢◌,
  slice_index,
  set,
  length,
  take,
  OnOk,
  OnErr,
  MatchOption,
  vec_len,
  vec_capacity,
};
ghost use Rattle.std.specs.Bool.{OnTrue, OnFalse};
ghost use Rattle.reply_text.specs.Words.{spaced};
ghost use Rattle.reply_text.specs.Text.{value_text, value_words, clock_text};

use crate::clock::put_clock;
use crate::forward::{DIGITS, ROOM, append_line, put_byte, put_hex, put_number};
use crate::replies::value_line;
use board_types::{Reply, Value};
use clk_units::NoMemory;
use itoa::write_digits;
use pvclock_page::ClockReply;
use std::marker::Model;

/// The beginning of the last reply's line, which is kept for the next: the line of the record and the number of the
/// access. Mostly each of them is one more, and one byte differs. A line of a byte takes 118 instructions so, as callgrind
/// counts them, where `value_line`, which has itoa write both numbers, takes 154 for short ones and 177 for long ones.
#[derive(Drop)]
pub struct CountedLines {
    line: u64,
    number: u64,
    /// The digits of the line, which end at place `DIGITS`, a space, and the digits of the number lie from `start` to `end`.
    text: [u8; ROOM],
    start: usize,
    end: usize,
}

impl Model for CountedLines {
    ghost use Rattle.std.specs.Prelude.{ℕ};
    ghost use Rattle.reply_text.specs.private.Front.{IsFront};

    ghost Value = { ℕ × ℕ };

    ghost view = { λ c. (c.line, c.number) };

    ghost invariant = { λ c. IsFront c.line c.number c.start c.end c.text };
}

impl CountedLines {
    /// Before the first line: that of record 0 and access 0.
    pub fn new() -> CountedLines
        ensures { result ≡ (0, 0) }
    {
        let mut text = [b'0'; ROOM];
        text[DIGITS] = b' ';
        CountedLines {
            line: 0,
            number: 0,
            text,
            start: DIGITS - 1,
            end: DIGITS + 2,
        }
    }

    /// The line of a board's reply, as `board_line` has it.
    pub fn board_line(
        &mut self,
        line: u64,
        reply: &Reply,
        out: &mut Vec<u8>,
    ) -> Result<(), NoMemory>
        ensures ok { OnOk result (out.new.items ≡ out.old.items ++ value_text line reply.now.number reply.now.value) }
        ensures err { OnErr result (out.new.items ≡ out.old.items) }
        ensures full { OnErr result (vec_capacity out.old
            < vec_len out.old + length (value_text line reply.now.number reply.now.value)) }
    {
        if self.both_count_to(line, reply.number) {
            return self.append_value(&reply.value, out);
        }
        self.line_apart(line, reply, out)
    }

    /// The line of a reply whose numbers are written anew. It is apart from the usual one, which makes no call.
    #[inline(never)]
    fn line_apart(&mut self, line: u64, reply: &Reply, out: &mut Vec<u8>) -> Result<(), NoMemory>
        ensures ok { OnOk result (out.new.items ≡ out.old.items ++ value_text line reply.now.number reply.now.value) }
        ensures err { OnErr result (out.new.items ≡ out.old.items) }
        ensures full { OnErr result (vec_capacity out.old
            < vec_len out.old + length (value_text line reply.now.number reply.now.value)) }
    {
        self.write_front(line, reply.number);
        self.append_value(&reply.value, out)
    }

    /// The line of a clock reading, as `clock_line` has it. The number of an access stays.
    pub fn clock_line(
        &mut self,
        line: u64,
        reply: &ClockReply,
        out: &mut Vec<u8>,
    ) -> Result<(), NoMemory>
        ensures ok { OnOk result (out.new.items ≡ out.old.items ++ clock_text line reply.now) }
        ensures err { OnErr result (out.new.items ≡ out.old.items) }
        ensures full { OnErr result (vec_capacity out.old
            < vec_len out.old + length (clock_text line reply.now)) }
    {
        self.go_to_line(line);
        let mut text = self.text;
        let end = put_clock(reply, &mut text);
        append_line(&text, self.start, end, out)
    }

    /// The line of the record is this now, most likely one more than the last.
    #[inline(always)]
    fn go_to_line(&mut self, line: u64)
        ensures { self.new ≡ (line, self.old.1) }
    {
        if !counts_to(&mut self.line, line, &mut self.text, DIGITS - 1) {
            self.write_line(line);
        }
    }

    /// Whether each number is one more than the last, and changes only its last digit or two; then they are these now.
    #[inline(always)]
    fn both_count_to(&mut self, line: u64, number: u64) -> bool
        ensures { OnTrue result (self.new ≡ (line, number)) }
    {
        counts_to(&mut self.line, line, &mut self.text, DIGITS - 1)
            && counts_to(&mut self.number, number, &mut self.text, self.end - 1)
    }

    /// The numbers are these now, whatever they were.
    fn write_front(&mut self, line: u64, number: u64)
        ensures { self.new ≡ (line, number) }
    {
        self.write_line(line);
        self.end = put_number(number, &mut self.text, DIGITS + 1);
        self.number = number;
    }

    /// The same, whatever it was. It is apart from where a line counts up.
    #[inline(never)]
    fn write_line(&mut self, line: u64)
        ensures { self.new ≡ (line, self.old.1) }
    {
        if self.line == line {
            return;
        }
        self.start = write_digits(line, &mut self.text, DIGITS);
        self.line = line;
    }

    /// Appends the line of the numbers and a value.
    #[inline(always)]
    #[tactic(auto, unfolding(crate::specs::Text::value_text))]
    fn append_value(&mut self, value: &Value, out: &mut Vec<u8>) -> Result<(), NoMemory>
        ensures ok { OnOk result (out.new.items ≡ out.old.items ++ value_text self.old.0 self.old.1 value.now) }
        ensures err { OnErr result (out.new.items ≡ out.old.items) }
        ensures full { OnErr result (vec_capacity out.old
            < vec_len out.old + length (value_text self.old.0 self.old.1 value.now)) }
    {
        let Some(end) = put_value(value, &mut self.text, self.end) else {
            return value_line(self.line, self.number, value, out);
        };
        append_line(&self.text, self.start, end, out)
    }
}

/// Whether a number is one more than another, whose last digit is at a place of a text, and changes only that digit or two;
/// then the other is this number now, and so are its digits.
#[inline(always)]
fn counts_to(before: &mut u64, n: u64, text: &mut [u8; ROOM], last: usize) -> bool
    requires some { 0 < last }
    requires within { last < ROOM }
    ensures counts { OnTrue result (before.old + 1 ≡ n) }
    ensures number { OnTrue result (before.new ≡ n) }
    ensures up { OnTrue result (slice_index text.old last ≢ 57
        → text.new ≡ set text.old last (slice_index text.old last + 1)) }
    ensures over { OnTrue result (slice_index text.old last ≡ 57
        → (10 ≤ before.old) × (slice_index text.old (last - 1) ≢ 57) × (text.new
        ≡ set (set text.old last 48) (last - 1) (slice_index text.old (last - 1) + 1))) }
    ensures still { OnFalse result ((before.new ≡ before.old) × (text.new ≡ text.old)) }
    ensures room { length text.new ≡ ROOM }
{
    if n.saturating_sub(*before) != 1 {
        return false;
    }
    if text[last] < b'9' {
        text[last] += 1;
    } else if !carries(*before, text, last) {
        return false;
    }
    *before = n;
    true
}

/// Whether a number ends in a 9 after another digit; then that is one more, and the last a 0.
#[inline(always)]
fn carries(n: u64, text: &mut [u8; ROOM], last: usize) -> bool
    requires some { 0 < last }
    requires within { last < ROOM }
    ensures long { OnTrue result (10 ≤ n) }
    ensures nine { OnTrue result (slice_index text.old last ≡ 57) }
    ensures low { OnTrue result (slice_index text.old (last - 1) ≢ 57) }
    ensures up { OnTrue result (text.new
        ≡ set (set text.old last 48) (last - 1) (slice_index text.old (last - 1) + 1)) }
    ensures still { OnFalse result (text.new ≡ text.old) }
{
    if n < 10 || text[last] != b'9' {
        return false;
    }
    let tens = text[last - 1];
    if tens >= b'9' {
        return false;
    }
    text[last] = b'0';
    text[last - 1] = tens + 1;
    true
}

/// Puts the value of most replies, and the line's end, after the front of a line, and returns where the line ends.
#[inline(always)]
fn put_value(value: &Value, text: &mut [u8; ROOM], end: usize) -> Option<usize>
    requires { end ≤ 41 }
    ensures value { MatchOption result (take end text.new ≡ take end text.old)
        (λ at. (take at text.new ≡ take end text.old ++ spaced (value_words value.now)) × (end ≤ at) × (at ≤ end + 18)) }
    ensures room { length text.new ≡ ROOM }
{
    let at = match *value {
        Value::Nothing => end,
        Value::Byte(byte) => put_hex(u64::from(byte), 1, text, end),
        Value::Word { width: 8, value } => put_hex(value, 8, text, end),
        Value::Word { width: 4, value } => put_hex(value, 4, text, end),
        _ => return None,
    };
    Some(put_byte(b'\n', text, at))
}
