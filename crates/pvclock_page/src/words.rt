//! A page as five words of 64 bits, which are kept and loaded one by one.

ghost use Rattle.std.specs.Prelude.{◌≡◌};
ghost use Rattle.pvclock_page.specs.Words.{words_of, page_of, scale_word};

use crate::page::Page;
use clk_units::{bit, bit_value};

/// Where the shift begins in the scale word, after the multiplier.
const SHIFT_AT: u64 = 1 << 32;

/// Where the flags begin in the scale word.
const FLAGS_AT: u64 = 1 << 40;

/// The bit of the scale word that says that the page is enabled.
const ENABLED_BIT: u32 = 48;

/// How many values a byte has.
const BYTE: u64 = 1 << 8;

/// The five words of a page: version, timestamp, system time, scale, offset. The scale word holds the
/// multiplier in bits 0 to 31, the shift in two's complement in bits 32 to 39, the flags in bits 40 to 47,
/// and in bit 48 whether the page is enabled (own).
pub fn page_words(page: &Page) -> [u64; 5]
    ensures value { result ≡ words_of page.now }
    ensures back { page_of result ≡ page.now }
{
    let scale = packed_scale(page.mul, page.shift, page.flags, page.enabled);
    [
        page.version,
        page.tsc_timestamp,
        page.system_time,
        scale,
        page.offset,
    ]
}

/// The page of five words. Bits 49 to 63 of the scale word don't count.
pub fn words_page(words: &[u64; 5]) -> Page
    ensures value { result ≡ page_of words.now }
{
    let [version, tsc_timestamp, system_time, scale, offset] = *words;
    Page {
        version,
        tsc_timestamp,
        system_time,
        mul: (scale % SHIFT_AT) as u32,
        shift: ((scale / SHIFT_AT % BYTE) as u8).cast_signed(),
        flags: (scale / FLAGS_AT % BYTE) as u8,
        offset,
        enabled: bit(ENABLED_BIT, scale),
    }
}

/// The scale word.
fn packed_scale(mul: u32, shift: i8, flags: u8, enabled: bool) -> u64
    ensures { result ≡ scale_word mul shift flags enabled }
{
    let shift_bits = u64::from(shift.cast_unsigned()) * SHIFT_AT;
    let flag_bits = u64::from(flags) * FLAGS_AT;
    u64::from(mul) + shift_bits + flag_bits + bit_value(enabled, ENABLED_BIT)
}
