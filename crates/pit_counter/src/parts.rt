//! The record of all fields of a counter, and the conditions on them.

ghost use Rattle.std.specs.Prelude.{◌≡◌, ◌↔◌, IsNone};
ghost use Rattle.pit_counter.specs.Parts.{
  IsCounter,
  first_fault,
  fault_after_count,
  only_where,
  may_be_low,
  count_flags_valid,
  mode_flags_valid,
  out_valid,
  bits_valid,
  flags_valid,
  cr_valid,
  ce_valid,
  part_valid,
  read_order_valid,
  latched_count_valid,
  latched_status_valid,
};

use crate::count::modulus;
use crate::mode::{Mode, access_of, mode_of};

/// All that a counter holds.
#[derive(Clone, Copy, Debug, PartialEq, Eq)]
#[repr(C)]
pub struct CounterParts {
    /// D5 to D0 of the last control word.
    pub bits: u8,
    /// Null count: what was written last isn't loaded yet.
    pub null: bool,
    /// The level of OUT.
    pub out: bool,
    /// The level of GATE.
    pub gate: bool,
    /// A complete count was written since the control word.
    pub full: bool,
    /// The count was loaded since the control word.
    pub live: bool,
    /// Modes 4 and 5: the strobe of the last load is still to come.
    pub armed: bool,
    /// Modes 1, 2, 3 and 5: a trigger waits for the next pulse.
    pub trig: bool,
    /// Mode 3: the last load was of an odd count.
    pub odd: bool,
    /// The count register: the last complete count as it was written.
    pub cr: u16,
    /// The counting element, as a number, also where it counts in BCD.
    pub ce: u16,
    /// The first byte of a two-byte count waits for the second.
    pub part_there: bool,
    /// That first byte; 0 where there is none.
    pub part: u8,
    /// The next read of the count gives its high byte.
    pub high_next: bool,
    /// A latched count waits to be read.
    pub count_latched: bool,
    /// That count as it reads; 0 where there is none.
    pub latched_count: u16,
    /// A latched status byte waits to be read.
    pub status_latched: bool,
    /// That status byte; 0 where there is none.
    pub latched_status: u8,
}

/// The fields of a counter as a saved state keeps them, in its order.
#[derive(Clone, Copy, Debug, PartialEq, Eq)]
pub enum CounterField {
    /// The programmed bits.
    ProgrammedBits,
    /// The flags: null count, OUT, GATE, `full`, `live`, `armed`, `trig`, `odd`.
    Flags,
    /// The count register.
    CountRegister,
    /// The counting element.
    CountingElement,
    /// The first byte of a two-byte count.
    FirstByte,
    /// Which byte is read next.
    ReadOrder,
    /// The latched count.
    LatchedCount,
    /// The latched status byte.
    LatchedStatus,
}

impl CounterParts {
    /// The first field whose condition fails, or None where these are the fields of a counter. A
    /// condition on several fields is one on the first of them at which it is certain that it fails
    /// (own).
    pub fn first_fault(&self) -> Option<CounterField>
        ensures value { result ≡ first_fault self.now }
        ensures none { IsNone result ↔ IsCounter self.now }
    {
        if !bits_valid(self) {
            Some(CounterField::ProgrammedBits)
        } else if !flags_valid(self) {
            Some(CounterField::Flags)
        } else if !cr_valid(self) {
            Some(CounterField::CountRegister)
        } else if !ce_valid(self) {
            Some(CounterField::CountingElement)
        } else {
            self.fault_after_count()
        }
    }

    /// The same of the fields after the counting element.
    fn fault_after_count(&self) -> Option<CounterField>
        ensures { result ≡ fault_after_count self.now }
    {
        if !part_valid(self) {
            Some(CounterField::FirstByte)
        } else if !read_order_valid(self) {
            Some(CounterField::ReadOrder)
        } else if !latched_count_valid(self) {
            Some(CounterField::LatchedCount)
        } else if !latched_status_valid(self) {
            Some(CounterField::LatchedStatus)
        } else {
            None
        }
    }
}

/// `a` is true only where `b` is.
fn only_where(a: bool, b: bool) -> bool
    ensures { result ≡ only_where a b }
{
    !a || b
}

/// The programmed bits are those of a control word.
#[tactic(auto, unfolding(crate::specs::Parts::bits_valid))]
pub fn bits_valid(p: &CounterParts) -> bool
    ensures { result ≡ bits_valid p.now }
{
    16 <= p.bits && p.bits < 64
}

/// Where OUT may be low, by mode.
fn may_be_low(mode: Mode, p: &CounterParts) -> bool
    ensures { result ≡ may_be_low mode p.now }
{
    match mode {
        Mode::TerminalCount => true,
        Mode::OneShot => p.live,
        Mode::RateGenerator | Mode::SquareWave => p.live && p.gate,
        Mode::SoftwareStrobe | Mode::HardwareStrobe => p.live && !p.armed,
    }
}

/// A count is loaded only where one was written, and null count is 0 only where one is loaded.
fn count_flags_valid(p: &CounterParts) -> bool
    ensures { result ≡ count_flags_valid p.now }
{
    only_where(p.live, p.full) && (p.null || p.live)
}

/// Each flag of a mode is set in its modes alone, and where there is a count.
fn mode_flags_valid(mode: Mode, p: &CounterParts) -> bool
    ensures { result ≡ mode_flags_valid mode p.now }
{
    only_where(p.armed, mode.has_strobe() && p.live)
        && only_where(p.trig, mode.has_trigger() && p.full)
        && only_where(p.odd, mode.is_square() && p.live)
}

/// OUT is low only where its mode lets it be, and in mode 0 while a count waits for its load.
fn out_valid(mode: Mode, p: &CounterParts) -> bool
    ensures { result ≡ out_valid mode p.now }
{
    (p.out || may_be_low(mode, p)) && only_where(mode.is_terminal() && p.null, !p.out)
}

/// The flags.
#[tactic(auto, unfolding(crate::specs::Parts::flags_valid))]
pub fn flags_valid(p: &CounterParts) -> bool
    ensures { result ≡ flags_valid p.now }
{
    let mode = mode_of(p.bits);
    count_flags_valid(p) && mode_flags_valid(mode, p) && out_valid(mode, p)
}

/// The count register is 0 where no count was written.
#[tactic(auto, unfolding(crate::specs::Parts::cr_valid))]
pub fn cr_valid(p: &CounterParts) -> bool
    ensures { result ≡ cr_valid p.now }
{
    p.full || p.cr == 0
}

/// The counting element is in its range, 0 before the first load, even in mode 3, and 1 where OUT
/// is low in mode 2.
#[tactic(auto, unfolding(crate::specs::Parts::ce_valid))]
pub fn ce_valid(p: &CounterParts) -> bool
    ensures { result ≡ ce_valid p.now }
{
    let mode = mode_of(p.bits);
    (p.ce as u32) < modulus(p.bits)
        && (p.live || p.ce == 0)
        && only_where(mode.is_square(), p.ce % 2 == 0)
        && only_where(mode.is_rate() && !p.out, p.ce == 1)
}

/// A first byte waits only where two are taken, in mode 0 with OUT low; without one the byte is 0.
#[tactic(auto, unfolding(crate::specs::Parts::part_valid))]
pub fn part_valid(p: &CounterParts) -> bool
    ensures { result ≡ part_valid p.now }
{
    only_where(p.part_there, access_of(p.bits).takes_two())
        && (p.part_there || p.part == 0)
        && only_where(mode_of(p.bits).is_terminal() && p.part_there, !p.out)
}

/// The high byte is next only where both are read.
#[tactic(auto, unfolding(crate::specs::Parts::read_order_valid))]
pub fn read_order_valid(p: &CounterParts) -> bool
    ensures { result ≡ read_order_valid p.now }
{
    only_where(p.high_next, access_of(p.bits).takes_two())
}

/// A latched count is 0 where none is latched.
#[tactic(auto, unfolding(crate::specs::Parts::latched_count_valid))]
pub fn latched_count_valid(p: &CounterParts) -> bool
    ensures { result ≡ latched_count_valid p.now }
{
    p.count_latched || p.latched_count == 0
}

/// A latched status is 0 where none is latched.
#[tactic(auto, unfolding(crate::specs::Parts::latched_status_valid))]
pub fn latched_status_valid(p: &CounterParts) -> bool
    ensures { result ≡ latched_status_valid p.now }
{
    p.status_latched || p.latched_status == 0
}
