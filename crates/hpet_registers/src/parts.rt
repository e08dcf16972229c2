//! The record of the HPET's fields, and the conditions on them.

ghost use Rattle.std.specs.Prelude.{◌≡◌, ◌<◌, ◌↔◌, None};
ghost use Rattle.hpet_registers.specs.Parts.{
  IsHpet,
  rest_fault,
  timer_fault_at,
  message_fault_at,
  first_below,
  or_else,
  hpet_fault,
};

use hpet_comparator::{TimerField, TimerParts};

/// All fields of the HPET.
#[repr(C)]
#[derive(Clone, Copy, Debug, PartialEq, Eq)]
pub struct HpetParts {
    /// Configuration: bit 0 ENABLE, bit 1 legacy replacement.
    pub config: u8,
    /// Status: bit `n` is set by a match of timer `n` while it is of level type.
    pub status: u8,
    /// The main counter.
    pub counter: u64,
    /// The timers; the places from `timers` on hold 0.
    pub timer: [TimerParts; 8],
    /// How many timers there are: 3 or 8.
    pub timers: u8,
    /// Whether the timers have message registers.
    pub messages: bool,
    /// Bit 14 of each timer's configuration, its message enable.
    pub message_bit: [bool; 8],
    /// Each timer's message register: the address in bits 63 to 32, the data in bits 31 to 0.
    pub message_word: [u64; 8],
}

/// A field of the HPET: the form of the block first, and then in the order in which a saved state
/// keeps them.
#[derive(Clone, Copy, Debug, PartialEq, Eq)]
pub enum HpetField {
    /// The number of timers: 3 or 8.
    Timers,
    /// Whether there are message registers: with eight timers alone.
    Messages,
    /// The configuration: at most 3.
    Config,
    /// The status: with three timers at most 7.
    Status,
    /// A field of this timer: its own condition, and 0 where there is no such timer.
    Timer(u8, TimerField),
    /// Bit 14 of this timer's configuration: 0 without message registers.
    MessageBit(u8),
    /// This timer's message register: 0 where there is none.
    MessageWord(u8),
}

/// What the place of a timer that isn't there holds.
pub(crate) const NO_TIMER: TimerParts = TimerParts {
    config: 0,
    comparator: 0,
    period: 0,
};

impl HpetParts {
    /// The first field, in the order of `HpetField`, whose condition fails; None exactly where
    /// these are the fields of an HPET.
    pub fn first_fault(&self) -> Option<HpetField>
        ensures value { result ≡ hpet_fault self.now }
        ensures none { (result ≡ None) ↔ IsHpet self.now }
    {
        fault_of(self)
    }
}

/// The first field whose condition fails.
fn fault_of(parts: &HpetParts) -> Option<HpetField>
    ensures { result ≡ hpet_fault parts.now }
{
    if !(parts.timers == 3 || parts.timers == 8) {
        Some(HpetField::Timers)
    } else if parts.messages && parts.timers != 8 {
        Some(HpetField::Messages)
    } else if parts.config > 3 {
        Some(HpetField::Config)
    } else if parts.timers != 8 && parts.status > 7 {
        Some(HpetField::Status)
    } else {
        place_faults(parts)
    }
}

/// The first field of a place without a timer that isn't 0.
fn rest_fault(parts: &TimerParts) -> Option<TimerField>
    ensures { result ≡ rest_fault parts.now }
{
    if parts.config != 0 {
        Some(TimerField::Config)
    } else if parts.comparator != 0 {
        Some(TimerField::Comparator)
    } else if parts.period != 0 {
        Some(TimerField::Period)
    } else {
        None
    }
}

/// The first field of place `k` whose condition fails.
fn timer_fault(parts: &HpetParts, k: u8) -> Option<HpetField>
    requires { k < 8 }
    ensures { result ≡ timer_fault_at parts.now k }
{
    let timer = parts.timer[k as usize];
    let fault = if k < parts.timers {
        timer.first_fault()
    } else {
        rest_fault(&timer)
    };
    match fault {
        Some(field) => Some(HpetField::Timer(k, field)),
        None => None,
    }
}

/// The first fault of the messages of timer `k`.
fn message_fault(parts: &HpetParts, k: u8) -> Option<HpetField>
    requires { k < 8 }
    ensures { result ≡ message_fault_at parts.now k }
{
    if parts.messages {
        None
    } else if parts.message_bit[k as usize] {
        Some(HpetField::MessageBit(k))
    } else if parts.message_word[k as usize] != 0 {
        Some(HpetField::MessageWord(k))
    } else {
        None
    }
}

/// The first fault of all places' timers.
fn timer_faults(parts: &HpetParts) -> Option<HpetField>
    ensures { result ≡ first_below (timer_fault_at parts.now) 8 }
{
    for k in 0..8u8 {
        if let Some(field) = timer_fault(parts, k) {
            return Some(field);
        }
    }
    None
}

/// The first fault of all places' messages.
fn message_faults(parts: &HpetParts) -> Option<HpetField>
    ensures { result ≡ first_below (message_fault_at parts.now) 8 }
{
    for k in 0..8u8 {
        if let Some(field) = message_fault(parts, k) {
            return Some(field);
        }
    }
    None
}

/// The first fault of all places.
fn place_faults(parts: &HpetParts) -> Option<HpetField>
    ensures { result
        ≡ or_else
        (first_below (timer_fault_at parts.now) 8)
        (first_below (message_fault_at parts.now) 8) }
{
    match timer_faults(parts) {
        Some(field) => Some(field),
        None => message_faults(parts),
    }
}
