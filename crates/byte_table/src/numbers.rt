//! Numbers at places of the bytes, their lowest byte first; a byte after the end counts as 0.
ghost use Rattle.std.specs.Prelude.{◌≡◌, ◌≤◌, ℕ, drop};
ghost use Rattle.byteorder.specs.Endian.{little_number};
ghost use Rattle.byte_table.specs.Codes.{byte_at, number_at, flag_at, flag_valid};

use byteorder::{ByteOrder, LittleEndian};

/// The byte at a place.
pub fn byte_at(bytes: &[u8], place: usize) -> u8
    ensures { result ≡ byte_at place bytes.now }
{
    if place < bytes.len() { bytes[place] } else { 0 }
}

/// The flag at a place.
pub fn flag_at(bytes: &[u8], place: usize) -> bool
    ensures { result ≡ flag_at place bytes.now }
{
    byte_at(bytes, place) == 1
}

/// Whether a flag's byte is 00 or 01.
pub fn flag_valid(bytes: &[u8], place: usize) -> bool
    ensures { result ≡ flag_valid place bytes.now }
{
    byte_at(bytes, place) < 2
}

/// The number in 2 bytes.
#[tactic(auto, unfolding(crate::specs::Codes::number_at))]
pub fn two_at(bytes: &[u8], place: usize) -> u16
    ensures { result ≡ number_at 2 place bytes.now }
{
    LittleEndian::read_u16(&bytes_at(bytes, place))
}

/// The number in 4 bytes.
#[tactic(auto, unfolding(crate::specs::Codes::number_at))]
pub fn four_at(bytes: &[u8], place: usize) -> u32
    ensures { result ≡ number_at 4 place bytes.now }
{
    LittleEndian::read_u32(&bytes_at(bytes, place))
}

/// The number in 8 bytes.
#[tactic(auto, unfolding(crate::specs::Codes::number_at))]
pub fn eight_at(bytes: &[u8], place: usize) -> u64
    ensures { result ≡ number_at 8 place bytes.now }
{
    LittleEndian::read_u64(&bytes_at(bytes, place))
}

/// The bytes from a place on.
#[tactic(auto, using(std::proofs::lemmas::List::drop_min))]
fn rest_at(bytes: &[u8], place: usize) -> &[u8]
    ensures { result.now ≡ drop place bytes.now }
{
    &bytes[place.min(bytes.len())..]
}

/// The 8 bytes from a place on.
#[tactic(auto, using(crate::proofs::Little::little_whole, crate::proofs::Little::little_short))]
fn bytes_at(bytes: &[u8], place: usize) -> [u8; 8]
    ensures { (n : ℕ) → n ≤ 8 → little_number n result ≡ little_number n (drop place bytes.now) }
{
    let rest = rest_at(bytes, place);
    let mut eight = [0; 8];
    if rest.len() < 8 {
        eight[..rest.len()].copy_from_slice(rest);
    } else {
        eight.copy_from_slice(&rest[..8]);
    }
    eight
}
