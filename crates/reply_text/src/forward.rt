//! Words that are written one after another from a place of a buffer on, and the line that they make.
ghost use Rattle.std.specs.Prelude.{
  ◌≡◌,
  ◌+◌,
  ◌-◌,
  ◌*◌,
  ◌<◌,
  ◌≤◌,
  ◌++◌,
  ◌∷◌,
  [],
  length,
  take,
  drop,
  decimal,
  OnOk,
  OnErr,
  vec_len,
  vec_capacity,
};
ghost use Rattle.reply_text.specs.Words.{hex_text};

use crate::digits::write_hex;
use clk_units::NoMemory;
use itoa::write_digits;

/// The bytes of a line, and as many after it as are copied at once.
pub(crate) const ROOM: usize = 96;

/// The most digits of a number.
pub(crate) const DIGITS: usize = 20;

/// Puts a word at a place, and returns where it ends.
#[inline(always)]
pub(crate) fn put_word(word: &[u8], text: &mut [u8; ROOM], at: usize) -> usize
    requires { at + length word.now ≤ ROOM }
    ensures end { result ≡ at + length word.now }
    ensures written { take result text.new ≡ take at text.old ++ word.now }
{
    let end = at + word.len();
    text[at..end].copy_from_slice(word);
    end
}

/// Puts a number at a place, and returns where it ends.
#[inline(always)]
pub(crate) fn put_number(n: u64, text: &mut [u8; ROOM], at: usize) -> usize
    requires { at + DIGITS ≤ ROOM }
    ensures end { result ≡ at + length (decimal n) }
    ensures short { result ≤ at + DIGITS }
    ensures written { take result text.new ≡ take at text.old ++ decimal n }
{
    let mut digits = [0; 2 * DIGITS];
    let start = write_digits(n, &mut digits, DIGITS);
    put_digits(&digits, start, text, at)
}

/// Puts a number at a place, and once more after a space, and returns where that ends.
#[inline(always)]
pub(crate) fn put_number_twice(n: u64, text: &mut [u8; ROOM], at: usize) -> usize
    requires { at + 2 * DIGITS + 1 ≤ ROOM }
    ensures short { (at ≤ result) × (result ≤ at + 2 * DIGITS + 1) }
    ensures written { take result text.new ≡ take at text.old ++ (decimal n ++ 32 ∷ decimal n) }
{
    let mut digits = [0; 2 * DIGITS];
    let start = write_digits(n, &mut digits, DIGITS);
    let at = put_digits(&digits, start, text, at);
    let at = put_byte(b' ', text, at);
    put_digits(&digits, start, text, at)
}

/// Puts the digits from a place of a buffer up to its middle at a place, and returns where they end. As many as a number
/// may have are copied, so that the compiler knows how many.
#[inline(always)]
fn put_digits(digits: &[u8; 2 * DIGITS], start: usize, text: &mut [u8; ROOM], at: usize) -> usize
    requires few { start ≤ DIGITS }
    requires room { at + DIGITS ≤ ROOM }
    ensures end { result ≡ at + (DIGITS - start) }
    ensures written { take result text.new ≡ take at text.old ++ take (DIGITS - start) (drop start digits.now) }
{
    text[at..at + DIGITS].copy_from_slice(&digits[start..start + DIGITS]);
    at + (DIGITS - start)
}

/// Puts a byte at a place, and returns where it ends.
#[inline(always)]
pub(crate) fn put_byte(byte: u8, text: &mut [u8; ROOM], at: usize) -> usize
    requires { at < ROOM }
    ensures end { result ≡ at + 1 }
    ensures written { take result text.new ≡ take at text.old ++ byte ∷ [] }
{
    text[at] = byte;
    at + 1
}

/// Puts a space and the hexadecimal digits of the last `count` bytes of a number at a place, and returns where they end.
#[inline(always)]
pub(crate) fn put_hex(n: u64, count: usize, text: &mut [u8; ROOM], at: usize) -> usize
    requires { at + 2 * count < ROOM }
    ensures end { result ≡ at + 1 + 2 * count }
    ensures written { take result text.new ≡ take at text.old ++ 32 ∷ hex_text (2 * count) n }
{
    let end = at + 1 + 2 * count;
    text[at] = b' ';
    write_hex(n, count, text, end);
    end
}

/// Appends the bytes from `start` to `end`. Where there is room, more are copied, so that the compiler knows how many.
#[inline(always)]
pub(crate) fn append_line(
    text: &[u8; ROOM],
    start: usize,
    end: usize,
    out: &mut Vec<u8>,
) -> Result<(), NoMemory>
    requires order { start ≤ end }
    requires within { (start ≤ 32) × (end ≤ ROOM) }
    ensures ok { OnOk result (out.new.items ≡ out.old.items ++ take (end - start) (drop start text.now)) }
    ensures err { OnErr result (out.new.items ≡ out.old.items) }
    ensures full { OnErr result (vec_capacity out.old < vec_len out.old + (end - start)) }
{
    let len = end - start;
    if 64 <= out.capacity() - out.len() {
        if len <= 32 {
            return append_front(&text[start..start + 32], len, out);
        }
        if len <= 64 {
            return append_front(&text[start..start + 64], len, out);
        }
    }
    append_apart(&text[start..end], out)
}

/// Appends the first bytes of some for which there is room.
#[inline(always)]
fn append_front(bytes: &[u8], len: usize, out: &mut Vec<u8>) -> Result<(), NoMemory>
    requires { len ≤ length bytes.now }
    ensures ok { OnOk result (out.new.items ≡ out.old.items ++ take len bytes.now) }
    ensures err { OnErr result (out.new.items ≡ out.old.items) }
    ensures full { OnErr result (vec_capacity out.old < vec_len out.old + length bytes.now) }
{
    let end = out.len() + len;
    out.extend_from_slice(bytes).map_err(|_| NoMemory)?;
    out.truncate(end);
    Ok(())
}

/// Appends bytes of any number. It is apart from where it is called, so that a caller keeps no registers for it.
#[inline(never)]
fn append_apart(bytes: &[u8], out: &mut Vec<u8>) -> Result<(), NoMemory>
    ensures ok { OnOk result (out.new.items ≡ out.old.items ++ bytes.now) }
    ensures err { OnErr result (out.new.items ≡ out.old.items) }
    ensures full { OnErr result (vec_capacity out.old < vec_len out.old + length bytes.now) }
{
    out.extend_from_slice(bytes).map_err(|_| NoMemory)
}
