//! Counts in binary and in BCD. Intel 8254 data sheet, "Programming the 8254".

ghost use Rattle.std.specs.Prelude.{◌≡◌, ◌%◌, ◌<◌, ◌≤◌};
ghost use Rattle.pit_counter.specs.Count.{
  modulus,
  from_digits,
  to_digits,
  number_in,
  meant_count,
  is_odd_square,
  loaded_count,
  lowered,
  read_as,
};

use crate::mode::{is_bcd, mode_of};

/// How many counts there are: 65,536 in binary and 10,000 in BCD.
#[tactic(auto, unfolding(crate::specs::Count::modulus))]
pub fn modulus(bits: u8) -> u32
    ensures value { result ≡ modulus bits }
    ensures least { 10000 ≤ result }
    ensures greatest { result ≤ 65536 }
{
    if is_bcd(bits) { 10_000 } else { 65_536 }
}

/// Four decimal digits as a number; a digit above 9 counts as its value (own).
#[tactic(auto, unfolding(crate::specs::Count::from_digits))]
fn from_digits(word: u16) -> u16
    ensures value { result ≡ from_digits word }
{
    word / 4096 * 1000 + word / 256 % 16 * 100 + word / 16 % 16 * 10 + word % 16
}

/// A number below 10,000 as four decimal digits.
#[tactic(auto, unfolding(crate::specs::Count::to_digits))]
fn to_digits(n: u16) -> u16
    requires { n < 10000 }
    ensures { result ≡ to_digits n }
{
    n / 1000 * 4096 + n / 100 % 10 * 256 + n / 10 % 10 * 16 + n % 10
}

/// The number that a count register holds.
#[tactic(auto, unfolding(crate::specs::Count::number_in, crate::specs::Count::modulus))]
fn number_in(bits: u8, cr: u16) -> u16
    ensures value { result ≡ number_in bits cr }
    ensures below { result < modulus bits }
{
    if is_bcd(bits) {
        from_digits(cr) % 10_000
    } else {
        cr
    }
}

/// The count that a count register means: 0 means the greatest count, and in modes 2 and 3 a count
/// of 1, which the data sheet forbids, acts as 2 (own).
#[tactic(auto, unfolding(crate::specs::Count::meant_count, crate::specs::Count::modulus))]
pub fn meant_count(bits: u8, cr: u16) -> u32
    ensures value { result ≡ meant_count bits cr }
    ensures some { 0 < result }
    ensures greatest { result ≤ modulus bits }
    ensures few { result ≤ 65536 }
{
    let n = number_in(bits, cr);
    if n == 0 {
        modulus(bits)
    } else if n == 1 && mode_of(bits).is_periodic() {
        2
    } else {
        n as u32
    }
}

/// Whether the count is odd where that matters: in mode 3.
#[tactic(auto, unfolding(crate::specs::Count::is_odd_square))]
pub fn is_odd_square(bits: u8, cr: u16) -> bool
    ensures { result ≡ is_odd_square bits cr }
{
    mode_of(bits).is_square() && meant_count(bits, cr) % 2 == 1
}

/// What a load puts into the counting element: the count, in mode 3 an odd one less 1; the greatest
/// count is 0 there.
#[tactic(auto, unfolding(crate::specs::Count::loaded_count))]
pub fn loaded_count(bits: u8, cr: u16) -> u16
    ensures { result ≡ loaded_count bits cr }
{
    let less = if is_odd_square(bits, cr) { 1 } else { 0 };
    ((meant_count(bits, cr) - less) % modulus(bits)) as u16
}

/// The count lower by `by`, going round below 0.
#[tactic(auto, unfolding(crate::specs::Count::lowered))]
pub fn lowered(bits: u8, ce: u16, by: u32) -> u16
    requires { by ≤ 2 }
    ensures { result ≡ lowered bits ce by }
{
    ((ce as u32 + modulus(bits) - by) % modulus(bits)) as u16
}

/// The count that is so far above 0; the greatest count is 0.
#[inline(always)]
#[tactic(auto, unfolding(crate::specs::Count::modulus))]
pub fn count_left(bits: u8, left: u64) -> u16
    requires { left ≤ modulus bits }
    ensures { result ≡ left % modulus bits }
{
    if left == modulus(bits) as u64 {
        0
    } else {
        left as u16
    }
}

/// The counting element as the processor reads it: in BCD as four digits.
#[tactic(auto, unfolding(crate::specs::Count::read_as))]
pub fn read_as(bits: u8, ce: u16) -> u16
    requires { ce < modulus bits }
    ensures { result ≡ read_as bits ce }
{
    if is_bcd(bits) { to_digits(ce) } else { ce }
}
