//! Saved states and moves.
ghost use Rattle.std.specs.Prelude.{
  ◌≡◌,
  ◌+◌,
  ◌*◌,
  ◌<◌,
  ◌≤◌,
  ◌++◌,
  [],
  ◌∷◌,
  length,
  OnOk,
  OnErr,
  vec_len,
  vec_capacity,
};
ghost use Rattle.std.specs.Char.{digit_char};
ghost use Rattle.std.specs.Io.{StartsWith};
ghost use Rattle.reply_text.specs.Words.{hexes};
ghost use Rattle.reply_text.specs.Text.{save_text, move_text, state_text};
ghost use Rattle.reply_text.specs.private.Appended.{IsAppended};

use crate::tail::Tail;
use clk_units::NoMemory;

/// The line of a save: the line of the record, the number of its access, and the bytes of the saved state.
#[tactic(auto, unfolding(crate::specs::Text::save_text))]
pub fn save_line(line: u64, number: u64, bytes: &[u8], out: &mut Vec<u8>) -> Result<(), NoMemory>
    ensures ok { OnOk result (out.new.items ≡ out.old.items ++ save_text line number bytes.now) }
    ensures err { OnErr result (out.new.items ≡ out.old.items) }
    ensures full { OnErr result (vec_capacity out.old
        < vec_len out.old + length (save_text line number bytes.now)) }
{
    let mut front = Tail::empty();
    front.text(b" state ");
    front.number(number);
    front.digits(line);
    append_state(&front, bytes, out)
}

/// The line of a saved state: its bytes.
#[tactic(auto, unfolding(crate::specs::Text::state_text))]
pub fn state_line(bytes: &[u8], out: &mut Vec<u8>) -> Result<(), NoMemory>
    ensures ok { OnOk result (out.new.items ≡ out.old.items ++ state_text bytes.now) }
    ensures err { OnErr result (out.new.items ≡ out.old.items) }
    ensures full { OnErr result (vec_capacity out.old
        < vec_len out.old + length (state_text bytes.now)) }
{
    let mut front = Tail::empty();
    front.text(b"state ");
    append_state(&front, bytes, out)
}

/// The line of a move: the line of the record, the number of its access, and the time after the gap.
#[tactic(auto, unfolding(crate::specs::Text::move_text))]
pub fn move_line(line: u64, number: u64, time: u64, out: &mut Vec<u8>) -> Result<(), NoMemory>
    ensures ok { OnOk result (out.new.items ≡ out.old.items ++ move_text line number time) }
    ensures err { OnErr result (out.new.items ≡ out.old.items) }
    ensures full { OnErr result (vec_capacity out.old
        < vec_len out.old + length (move_text line number time)) }
{
    let mut tail = Tail::new();
    tail.number(time);
    tail.word(b"moved");
    tail.number(number);
    tail.digits(line);
    tail.append_to(out)
}

/// Appends a front, the digits of bytes and the line's end.
fn append_state(front: &Tail, bytes: &[u8], out: &mut Vec<u8>) -> Result<(), NoMemory>
    ensures ok { OnOk result (out.new.items
        ≡ out.old.items ++ front.now ++ hexes bytes.now ++ 10 ∷ []) }
    ensures err { OnErr result (out.new.items ≡ out.old.items) }
    ensures full { OnErr result (vec_capacity out.old
        < vec_len out.old + length (front.now ++ hexes bytes.now ++ 10 ∷ [])) }
{
    let before = out.len();
    let appended = append_parts(front, bytes, out);
    if appended.is_err() {
        out.truncate(before);
    }
    appended
}

/// The same, but what was appended stays after an `Err`.
fn append_parts(front: &Tail, bytes: &[u8], out: &mut Vec<u8>) -> Result<(), NoMemory>
    ensures ok { OnOk result (out.new.items
        ≡ out.old.items ++ front.now ++ hexes bytes.now ++ 10 ∷ []) }
    ensures err { OnErr result (StartsWith out.new.items out.old.items) }
    ensures full { OnErr result (vec_capacity out.old
        < vec_len out.old + length (front.now ++ hexes bytes.now ++ 10 ∷ [])) }
{
    front.append_to(out)?;
    append_hexes(bytes, out)?;
    append_bytes(b"\n", out)
}

/// How many bytes of a saved state are written at once.
const PIECE: usize = 64;

/// Appends two digits a byte. What was appended stays after an `Err`.
fn append_hexes(bytes: &[u8], out: &mut Vec<u8>) -> Result<(), NoMemory>
    ensures appended { IsAppended out.old out.new (hexes bytes.now) result }
    ensures err { OnErr result (StartsWith out.new.items out.old.items) }
{
    let mut left = bytes;
    while let Some((piece, more)) = left.split_first_chunk::<PIECE>() {
        append_bytes(&hexes(piece), out)?;
        left = more;
    }
    append_last(left, out)
}

/// The same for fewer bytes than a piece, which changes nothing where it fails.
fn append_last(bytes: &[u8], out: &mut Vec<u8>) -> Result<(), NoMemory>
    requires { length bytes.now ≤ PIECE }
    ensures appended { IsAppended out.old out.new (hexes bytes.now) result }
    ensures err { OnErr result (out.new.items ≡ out.old.items) }
{
    let len = bytes.len();
    let mut piece = [0; PIECE];
    piece[..len].copy_from_slice(bytes);
    append_bytes(&hexes(&piece)[..2 * len], out)
}

/// The digits of a piece, in a loop that a compiler can make steps of many bytes of.
fn hexes(piece: &[u8; PIECE]) -> [u8; 2 * PIECE]
    ensures { result ≡ hexes piece.now }
{
    let mut text = [0; 2 * PIECE];
    for k in 0..PIECE {
        text[2 * k] = digit(piece[k] / 16);
        text[2 * k + 1] = digit(piece[k] % 16);
    }
    text
}

/// A hexadecimal digit, without a branch.
#[inline(always)]
fn digit(n: u8) -> u8
    requires { n < 16 }
    ensures { result ≡ digit_char n }
{
    n + 48 + if n < 10 { 0 } else { 39 }
}

/// Appends bytes.
#[inline]
fn append_bytes(bytes: &[u8], out: &mut Vec<u8>) -> Result<(), NoMemory>
    ensures appended { IsAppended out.old out.new bytes.now result }
    ensures err { OnErr result (out.new.items ≡ out.old.items) }
{
    out.extend_from_slice(bytes).map_err(|_| NoMemory)
}
