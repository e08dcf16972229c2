//! Bytes and numbers, appended to bytes.
ghost use Rattle.std.specs.Prelude.{◌≡◌, ◌≤◌, ◌∷◌, [], ◌++◌, OnOk, if◌then◌else◌, slice_index_or, false, map};
ghost use Rattle.byte_table.specs.Codes.{number_bytes, flags_byte};
ghost use Rattle.clk_units.specs.Bits.{bit_value};

use byteorder::{LittleEndian, WriteBytesExt};
use clk_units::NoMemory;

/// Appends bytes.
pub fn put(out: &mut Vec<u8>, bytes: &[u8]) -> Result<(), NoMemory>
    ensures { OnOk result (out.new.items ≡ out.old.items ++ bytes.now) }
{
    out.extend_from_slice(bytes).map_err(|_| NoMemory)
}

/// Appends a number of 2 bytes.
#[tactic(auto, unfolding(crate::specs::Codes::number_bytes))]
pub fn put_2(out: &mut Vec<u8>, x: u16) -> Result<(), NoMemory>
    ensures { OnOk result (out.new.items ≡ out.old.items ++ number_bytes 2 x) }
{
    out.write_u16::<LittleEndian>(x).map_err(|_| NoMemory)
}

/// Appends a number of 4 bytes.
#[tactic(auto, unfolding(crate::specs::Codes::number_bytes))]
pub fn put_4(out: &mut Vec<u8>, x: u32) -> Result<(), NoMemory>
    ensures { OnOk result (out.new.items ≡ out.old.items ++ number_bytes 4 x) }
{
    out.write_u32::<LittleEndian>(x).map_err(|_| NoMemory)
}

/// Appends a number of 8 bytes.
#[tactic(auto, unfolding(crate::specs::Codes::number_bytes))]
pub fn put_8(out: &mut Vec<u8>, x: u64) -> Result<(), NoMemory>
    ensures { OnOk result (out.new.items ≡ out.old.items ++ number_bytes 8 x) }
{
    out.write_u64::<LittleEndian>(x).map_err(|_| NoMemory)
}

/// The byte of a flag.
pub fn flag_byte(flag: bool) -> u8
    ensures value { result ≡ bit_value flag 0 }
    ensures small { result ≤ 1 }
{
    u8::from(flag)
}

/// The value of a flag in its byte.
fn value_if(flag: bool, value: u8) -> u8
    ensures value { result ≡ (if flag then value else 0) }
    ensures small { result ≤ value }
{
    if flag { value } else { 0 }
}

/// The byte of eight flags, the first its lowest bit.
pub fn flags_byte(flags: &[bool; 8]) -> u8
    ensures { result ≡ flags_byte 0
        (map (λ k. slice_index_or flags.now k false) (0 ∷ 1 ∷ 2 ∷ 3 ∷ 4 ∷ 5 ∷ 6 ∷ 7 ∷ [])) }
{
    value_if(flags[0], 1)
        + value_if(flags[1], 2)
        + value_if(flags[2], 4)
        + value_if(flags[3], 8)
        + value_if(flags[4], 16)
        + value_if(flags[5], 32)
        + value_if(flags[6], 64)
        + value_if(flags[7], 128)
}
