//! Decimal digits of a line that are read eight bytes at a time, as one word.
ghost use Rattle.std.specs.Prelude.{◌≡◌, ℕ, List, ◌%◌, ◌+◌, ◌^◌, ◌<◌, ◌≤◌, take, drop, length};
ghost use Rattle.std.specs.Int.Digits.{number_from_digits, AllBelowBase};
ghost use Rattle.trace_text.specs.private.Spelled.{AreDigits, AreRead, Spells};
ghost use lib.Lanes.{number_l};

use crate::bytes::{NO_SPELLING, Spelling, ends_at};
use std::simd::prelude::*;

/// The decimal digits that eight bytes of a line begin with.
#[derive(Clone, Copy)]
pub(crate) enum Digits {
    /// All eight are digits, of this number.
    Eight(u64),
    /// Those before another byte, which may be none; the end is the place of that byte.
    Fewer(Spelling),
}

/// The digit 0 in each byte of a word.
const ZEROS: u64 = 0x3030_3030_3030_3030;

/// What takes each byte above the digit 9 to 128 or more, and leaves a digit below.
const ABOVE_NINES: u64 = 0x4646_4646_4646_4646;

/// The highest bit of each byte of a word.
const HIGH_BITS: u64 = 0x8080_8080_8080_8080;

/// The powers of ten by which a number grows with fewer than eight digits.
static TENS: [u64; 8] = [1, 10, 100, 1_000, 10_000, 100_000, 1_000_000, 10_000_000];

/// Eight bytes of a line as one word, the first of them in its lowest byte. They are loaded at once.
#[inline(always)]
fn word_at(line: &[u8], at: usize) -> u64
    requires { at + 8 ≤ length line.now }
    ensures { result ≡ number_l 256 (take 8 (drop at line.now)) % 2 ^ 64 }
{
    u64x1::from_le_bytes(u8x8::from_slice(&line[at..])).to_array()[0]
}

/// The number of the eight digits in the bytes of a word, the first of them in its lowest byte: two digits are joined
/// at a time, then two pairs, then the halves.
#[inline(always)]
fn joined(digits: u64) -> u64
    ensures { (ds : List ℕ) → length ds ≡ 8 → AllBelowBase 10 ds → digits ≡ number_l 256 ds
        → result ≡ number_from_digits 10 ds }
{
    let pairs = (digits.wrapping_mul(2561) >> 8) & 0x00ff_00ff_00ff_00ff;
    let halves = (pairs.wrapping_mul(6_553_601) >> 16) & 0x0000_ffff_0000_ffff;
    halves.wrapping_mul(42_949_672_960_001) >> 32
}

/// The decimal digits that the eight bytes at a place of a line begin with. All are read as one word, without a branch
/// for each.
#[inline(always)]
pub(crate) fn eight_digits_at(line: &[u8], at: usize) -> Digits
    requires { at + 8 ≤ length line.now }
    ensures { AreRead line.now at result }
{
    let word = word_at(line, at);
    let digits = word.wrapping_sub(ZEROS);
    let others = (word.wrapping_add(ABOVE_NINES) | digits) & HIGH_BITS;
    if others == 0 {
        return Digits::Eight(joined(digits));
    }
    let count = others.trailing_zeros() / 8;
    let last = digits << (56 - 8 * count) << 8;
    Digits::Fewer(Spelling {
        value: joined(last),
        end: at + count as usize,
    })
}

/// The number at a place of a line of which the first eight digits spell `read`, if it has at most 16 digits, with an end
/// of 0 for any other: the digits after the eight are read as one word too. It is apart from where it is called, which
/// most counters don't need.
#[inline(never)]
pub(crate) fn long_number_apart(line: &[u8], at: usize, read: u64) -> Spelling
    requires within { at + 16 ≤ length line.now }
    requires read { AreDigits line.now at (at + 8) read }
    ensures { 0 < result.end → (at < result.end) × (result.end ≤ length line.now)
        × Spells 10 line.now at result.end result.value }
{
    match eight_digits_at(line, at + 8) {
        Digits::Eight(more) => {
            if !ends_at(line, at + 16) {
                return NO_SPELLING;
            }
            Spelling {
                value: read * 100_000_000 + more,
                end: at + 16,
            }
        }
        Digits::Fewer(fewer) => {
            if line[fewer.end] != b' ' {
                return NO_SPELLING;
            }
            let power = TENS[fewer.end - (at + 8)];
            Spelling {
                value: read * power + fewer.value,
                end: fewer.end,
            }
        }
    }
}
