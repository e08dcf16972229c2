//! Latches, and the order in which a counter's bytes are read. Intel 8254 data sheet, "Read
//! Operations", "Counter Latch Command" and "Read-Back Command".

ghost use Rattle.std.specs.Prelude.{◌≡◌, ◌<◌, ◌/◌, ◌%◌, false, if◌then◌else◌, IfSome};
ghost use Rattle.pit_counter.specs.Mode.{access_of, is_bcd};
ghost use Rattle.pit_counter.specs.Count.{modulus};
ghost use Rattle.pit_counter.specs.Parts.{IsCounter};
ghost use Rattle.pit_counter.specs.Table.{pulsed_times};
ghost use Rattle.pit_counter.specs.private.Plan.{plan_of};
ghost use Rattle.pit_counter.specs.Reading.{
  count_of,
  status_of,
  with_count_latched,
  with_status_latched,
  shown_count,
  reads_high,
  reads_last,
  byte_read,
  after_read,
};

use crate::count::read_as;
use crate::division::divided_count;
use crate::mode::{Access, access_of, is_bcd};
use crate::parts::CounterParts;
use crate::plan::{Plan, period_of, planned_count};
use crate::stretch::take_pulses;

/// The count as it reads now.
#[tactic(auto, unfolding(crate::specs::Reading::count_of))]
pub fn count_of(p: &CounterParts) -> u16
    requires { p.now.ce < modulus p.now.bits }
    ensures { result ≡ count_of p.now }
{
    read_as(p.bits, p.ce)
}

/// The status byte: D7 OUT, D6 null count, D5 to D0 the programmed bits.
#[tactic(auto, unfolding(crate::specs::Reading::status_of))]
fn status_of(p: &CounterParts) -> u8
    requires { p.now.bits < 64 }
    ensures { result ≡ status_of p.now }
{
    let out = if p.out { 1 << 7 } else { 0 };
    let null = if p.null { 1 << 6 } else { 0 };
    out + null + p.bits
}

/// A latch of the count.
#[tactic(auto, unfolding(crate::specs::Reading::with_count_latched))]
pub fn with_count_latched(p: CounterParts) -> CounterParts
    requires { p.ce < modulus p.bits }
    ensures { result ≡ with_count_latched p }
{
    CounterParts {
        count_latched: true,
        latched_count: shown_count(&p),
        ..p
    }
}

/// A latch of the status.
#[tactic(auto, unfolding(crate::specs::Reading::with_status_latched))]
pub fn with_status_latched(p: CounterParts) -> CounterParts
    requires { p.bits < 64 }
    ensures { result ≡ with_status_latched p }
{
    if p.status_latched {
        return p;
    }
    CounterParts {
        status_latched: true,
        latched_status: status_of(&p),
        ..p
    }
}

/// The count that a read is of: the latched one, or the present one.
#[tactic(auto, unfolding(crate::specs::Reading::shown_count))]
fn shown_count(p: &CounterParts) -> u16
    requires { p.now.ce < modulus p.now.bits }
    ensures { result ≡ shown_count p.now }
{
    if p.count_latched {
        p.latched_count
    } else {
        count_of(p)
    }
}

/// Whether a read of the count gives its high byte.
fn reads_high(access: Access, high_next: bool) -> bool
    ensures { result ≡ reads_high access high_next }
{
    match access {
        Access::LowByte => false,
        Access::HighByte => true,
        Access::LowThenHigh => high_next,
    }
}

/// Whether that byte is the last of the count.
fn reads_last(access: Access, high_next: bool) -> bool
    ensures { result ≡ reads_last access high_next }
{
    match access {
        Access::LowByte | Access::HighByte => true,
        Access::LowThenHigh => high_next,
    }
}

/// The high or the low byte of a count.
#[inline(always)]
fn byte_of(count: u16, high: bool) -> u8
    ensures { result ≡ (if high then count / 256 else count % 256) }
{
    if high {
        (count / 256) as u8
    } else {
        (count % 256) as u8
    }
}

/// The byte that a read gives: a latched status first, else a byte of the count.
#[inline(always)]
#[tactic(auto, unfolding(crate::specs::Reading::byte_read))]
pub fn byte_read(p: &CounterParts) -> u8
    requires { p.now.ce < modulus p.now.bits }
    ensures { result ≡ byte_read p.now }
{
    if p.status_latched {
        return p.latched_status;
    }
    let high = reads_high(access_of(p.bits), p.high_next);
    byte_of(shown_count(p), high)
}

/// What a read leaves: a latched status is released, or the other byte of a count is next. With its last byte a latched
/// count is released.
#[inline(always)]
#[tactic(auto, unfolding(crate::specs::Reading::after_read, crate::specs::Reading::status_released, crate::specs::Reading::count_released,))]
pub fn leave_read(p: &mut CounterParts)
    ensures { p.new ≡ after_read p.old }
{
    if p.status_latched {
        p.status_latched = false;
        p.latched_status = 0;
        return;
    }
    let access = access_of(p.bits);
    let last = reads_last(access, p.high_next);
    p.high_next = access.takes_two() && !p.high_next;
    p.count_latched = p.count_latched && !last;
    if last {
        p.latched_count = 0;
    }
}

/// Reads a byte, out of the way of reads with nothing latched.
#[cold]
#[inline(never)]
fn read(p: &mut CounterParts) -> u8
    requires { p.old.ce < modulus p.old.bits }
    ensures state { p.new ≡ after_read p.old }
    ensures byte { result ≡ byte_read p.old }
{
    let byte = byte_read(p);
    leave_read(p);
    byte
}

/// Reads a byte as after `n` more pulses, which a copy takes.
#[cold]
#[inline(never)]
fn read_by_copy(p: &mut CounterParts, n: u64) -> u8
    requires { IsCounter p.old }
    ensures state { p.new ≡ after_read p.old }
    ensures byte { result ≡ byte_read (pulsed_times n p.old) }
{
    let mut later = *p;
    take_pulses(&mut later, n);
    let byte = byte_read(&later);
    leave_read(p);
    byte
}

/// A read with nothing latched changes only which byte is next. Answers whether it gives the high
/// byte.
// By RW1 and RW0 themselves: to make an `Access` of them first takes ten instructions more of each read.
#[inline(always)]
#[tactic(auto, unfolding(crate::specs::Mode::access_of))]
fn turn(p: &mut CounterParts) -> bool
    requires valid { IsCounter p.old }
    requires no_status { p.old.status_latched ≡ false }
    requires no_count { p.old.count_latched ≡ false }
    ensures state { p.new ≡ after_read p.old }
    ensures high { result ≡ reads_high (access_of p.old.bits) p.old.high_next }
{
    let rw = p.bits / 16 % 4;
    if rw == 1 {
        return false;
    }
    if rw == 2 {
        return true;
    }
    let high = p.high_next;
    p.high_next = !high;
    high
}

/// The binary count after `n` pulses, where it comes by a sum or a division.
#[inline(always)]
fn count_later(p: &CounterParts, plan: &Plan, n: u64) -> Option<u16>
    requires below { p.now.ce < modulus p.now.bits }
    requires binary { is_bcd p.now.bits ≡ false }
    requires planned { plan.now ≡ plan_of p.now }
    ensures { IfSome result (λ count. count ≡ (pulsed_times n p.now).ce) }
{
    if n <= plan.quiet {
        return Some(planned_count(plan, p, n));
    }
    let period = period_of(plan, p)?;
    Some(divided_count(p, period, n))
}

/// Reads a byte as after `n` more pulses, and takes none of them: no pulse changes what is latched,
/// nor the order of the bytes.
#[inline(always)]
pub fn read_later(p: &mut CounterParts, plan: &Plan, n: u64) -> u8
    requires valid { IsCounter p.old }
    requires planned { plan.now ≡ plan_of p.old }
    ensures state { p.new ≡ after_read p.old }
    ensures byte { result ≡ byte_read (pulsed_times n p.old) }
{
    if p.status_latched || p.count_latched {
        return read(p);
    }
    if is_bcd(p.bits) {
        return read_by_copy(p, n);
    }
    match count_later(p, plan, n) {
        Some(count) => byte_of(count, turn(p)),
        None => read_by_copy(p, n),
    }
}
