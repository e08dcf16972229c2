//! Digits, and text, written in front of a place of a buffer.
ghost use Rattle.std.specs.Prelude.{
  ◌≡◌,
  ◌+◌,
  ◌*◌,
  ◌/◌,
  ◌%◌,
  ◌≤◌,
  ◌++◌,
  ◌∷◌,
  length,
  take,
  drop,
};
ghost use Rattle.std.specs.Char.{digit_char};
ghost use Rattle.reply_text.specs.Words.{hex_text};

/// The two hexadecimal digits of each byte, one pair after the other.
static PAIRS: [u8; 512] = *b"000102030405060708090a0b0c0d0e0f101112131415161718191a1b1c1d1e1f\
202122232425262728292a2b2c2d2e2f303132333435363738393a3b3c3d3e3f\
404142434445464748494a4b4c4d4e4f505152535455565758595a5b5c5d5e5f\
606162636465666768696a6b6c6d6e6f707172737475767778797a7b7c7d7e7f\
808182838485868788898a8b8c8d8e8f909192939495969798999a9b9c9d9e9f\
a0a1a2a3a4a5a6a7a8a9aaabacadaeafb0b1b2b3b4b5b6b7b8b9babbbcbdbebf\
c0c1c2c3c4c5c6c7c8c9cacbcccdcecfd0d1d2d3d4d5d6d7d8d9dadbdcdddedf\
e0e1e2e3e4e5e6e7e8e9eaebecedeeeff0f1f2f3f4f5f6f7f8f9fafbfcfdfeff";

/// Writes the two hexadecimal digits of a byte so that they end at `end`, and returns where they start.
#[inline(always)]
fn write_pair(byte: u8, buf: &mut [u8], end: usize) -> usize
    requires room { 2 ≤ end }
    requires within { end ≤ length buf.old }
    ensures start { result + 2 ≡ end }
    ensures written { drop result buf.new
        ≡ digit_char (byte / 16) ∷ digit_char (byte % 16) ∷ drop end buf.old }
    ensures before { take result buf.new ≡ take result buf.old }
{
    let pair = 2 * byte as usize;
    let start = end - 2;
    buf[start] = PAIRS[pair];
    buf[start + 1] = PAIRS[pair + 1];
    start
}

/// Writes the hexadecimal digits of the last `count` bytes of a number so that they end at `end`, and returns where they
/// start.
#[inline(always)]
pub(crate) fn write_hex(n: u64, count: usize, buf: &mut [u8], end: usize) -> usize
    requires room { 2 * count ≤ end }
    requires within { end ≤ length buf.old }
    ensures start { result + 2 * count ≡ end }
    ensures written { drop result buf.new ≡ hex_text (2 * count) n ++ drop end buf.old }
    ensures before { take result buf.new ≡ take result buf.old }
{
    let mut left = n;
    let mut at = end;
    for _ in 0..count {
        at = write_pair((left % 256) as u8, buf, at);
        left /= 256;
    }
    at
}

/// Writes a text so that it ends at `end`, and returns where it starts.
#[inline(always)]
pub(crate) fn write_text(text: &[u8], buf: &mut [u8], end: usize) -> usize
    requires room { length text.now ≤ end }
    requires within { end ≤ length buf.old }
    ensures start { result + length text.now ≡ end }
    ensures written { drop result buf.new ≡ text.now ++ drop end buf.old }
{
    let start = end - text.len();
    buf[start..end].copy_from_slice(text);
    start
}

/// Writes a byte so that it ends at `end`, and returns where it starts.
#[inline(always)]
pub(crate) fn write_byte(byte: u8, buf: &mut [u8], end: usize) -> usize
    requires room { 1 ≤ end }
    requires within { end ≤ length buf.old }
    ensures start { result + 1 ≡ end }
    ensures written { drop result buf.new ≡ byte ∷ drop end buf.old }
{
    let start = end - 1;
    buf[start] = byte;
    start
}
