//! Pages, clock readings, and the reference page.
ghost use Rattle.std.specs.Prelude.{
  ◌≡◌,
  ◌+◌,
  ◌*◌,
  ◌<◌,
  ◌≤◌,
  ◌++◌,
  [],
  ◌∷◌,
  length,
  take,
  drop,
  codes,
  decimal,
  OnOk,
  OnErr,
  vec_len,
  vec_capacity,
};
ghost use Rattle.reply_text.specs.Text.{page_text, clock_text, hv_text};
ghost use Rattle.reply_text.specs.private.Readings.{reading_text};

use crate::forward::{DIGITS, ROOM, append_line, put_byte, put_number, put_number_twice, put_word};
use crate::tail::Tail;
use clk_units::NoMemory;
use hv_page::HvReply;
use itoa::write_digits;
use pvclock_page::{ClockReply, PageReply};

/// The line of a page that was read, with the reading at its time; or that it is off.
#[tactic(auto, unfolding(crate::specs::Text::page_text))]
pub fn page_line(line: u64, reply: &PageReply, out: &mut Vec<u8>) -> Result<(), NoMemory>
    ensures ok { OnOk result (out.new.items ≡ out.old.items ++ page_text line reply.now) }
    ensures err { OnErr result (out.new.items ≡ out.old.items) }
    ensures full { OnErr result (vec_capacity out.old
        < vec_len out.old + length (page_text line reply.now)) }
{
    let mut tail = Tail::new();
    match reply {
        PageReply::Off => tail.word(b"off"),
        PageReply::On { page, reading } => {
            tail.number(*reading);
            tail.hex(u64::from(page.flags), 1);
            tail.signed(page.shift);
            tail.hex(u64::from(page.mul), 4);
            tail.number(page.system_time);
            tail.number(page.tsc_timestamp);
            tail.number(page.version);
        }
    }
    tail.word(b"page");
    tail.digits(line);
    tail.append_to(out)
}

/// The line of a clock reading, as the page gives it and as the clamp makes it; or that the page is off.
pub fn clock_line(line: u64, reply: &ClockReply, out: &mut Vec<u8>) -> Result<(), NoMemory>
    ensures ok { OnOk result (out.new.items ≡ out.old.items ++ clock_text line reply.now) }
    ensures err { OnErr result (out.new.items ≡ out.old.items) }
    ensures full { OnErr result (vec_capacity out.old
        < vec_len out.old + length (clock_text line reply.now)) }
{
    let mut text = [0; ROOM];
    let start = put_front(line, &mut text);
    let end = put_clock(reply, &mut text);
    append_line(&text, start, end, out)
}

/// Puts the line of a record in front of its place, and returns where it starts.
#[inline(always)]
fn put_front(line: u64, text: &mut [u8; ROOM]) -> usize
    ensures before { result ≤ DIGITS }
    ensures written { drop result (take DIGITS text.new) ≡ decimal line }
    ensures room { length text.new ≡ ROOM }
{
    write_digits(line, text, DIGITS)
}

/// Puts the words of a clock reading's line after that of its record, and the line's end, and returns where the line ends.
#[inline(always)]
pub(crate) fn put_clock(reply: &ClockReply, text: &mut [u8; ROOM]) -> usize
    ensures within { (DIGITS ≤ result) × (result ≤ ROOM) }
    ensures written { take result text.new
        ≡ take DIGITS text.old ++ (codes " clock " ++ (reading_text reply.now ++ 10 ∷ [])) }
    ensures room { length text.new ≡ ROOM }
{
    let at = put_word(b" clock ", text, DIGITS);
    let at = put_reading(reply, text, at);
    put_byte(b'\n', text, at)
}

/// Puts the last words of a clock reading's line at a place, and returns where they end.
#[inline(always)]
fn put_reading(reply: &ClockReply, text: &mut [u8; ROOM], at: usize) -> usize
    requires { at + 2 * DIGITS + 2 ≤ ROOM }
    ensures within { (at ≤ result) × (result < ROOM) }
    ensures written { take result text.new ≡ take at text.old ++ reading_text reply.now }
    ensures room { length text.new ≡ ROOM }
{
    match *reply {
        ClockReply::Off => put_word(b"off", text, at),
        // Mostly the clamp leaves the reading as it is.
        ClockReply::On { reading, clock } => if reading == clock {
            put_number_twice(clock, text, at)
        } else {
            let at = put_number(reading, text, at);
            let at = put_byte(b' ', text, at);
            put_number(clock, text, at)
        },
    }
}

/// The line of the reference page that was read: the sequence, scale and offset that a guest sees, and the time that
/// they give, in units of 100 ns; or that the page is off.
#[tactic(auto, unfolding(crate::specs::Text::hv_text))]
pub fn hv_line(line: u64, reply: &HvReply, out: &mut Vec<u8>) -> Result<(), NoMemory>
    ensures ok { OnOk result (out.new.items ≡ out.old.items ++ hv_text line reply.now) }
    ensures err { OnErr result (out.new.items ≡ out.old.items) }
    ensures full { OnErr result (vec_capacity out.old
        < vec_len out.old + length (hv_text line reply.now)) }
{
    let mut tail = Tail::new();
    match reply {
        HvReply::Off => tail.word(b"off"),
        HvReply::On { page, reading } => {
            tail.number(*reading);
            tail.number(page.offset);
            tail.number(page.scale);
            tail.number(page.sequence());
        }
    }
    tail.word(b"hv");
    tail.digits(line);
    tail.append_to(out)
}
