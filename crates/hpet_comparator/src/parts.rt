//! The record of a timer's fields, what its configuration says, and the conditions on the fields.

ghost use Rattle.std.specs.Prelude.{◌≡◌, ◌/◌, ◌%◌, ◌<◌, ◌↔◌, None};
ghost use Rattle.clk_units.specs.Bits.{bit};
ghost use Rattle.hpet_comparator.specs.Parts.{is_level, is_enabled, is_periodic, takes_comparator};
ghost use Rattle.hpet_comparator.specs.Parts.{is_32_bit, route_of, modulus, config_valid};
ghost use Rattle.hpet_comparator.specs.Parts.{comparator_valid, period_valid, timer_fault, IsTimer};

use clk_units::bit;

/// Bit 1 of the configuration: level type.
const LEVEL: u32 = 1;
/// Bit 2: interrupt enable.
const ENABLE: u32 = 2;
/// Bit 3: periodic.
const PERIODIC: u32 = 3;
/// Bit 6: VAL_SET.
pub(crate) const VAL_SET: u32 = 6;
/// Bit 8: 32-bit mode.
const MODE_32: u32 = 8;
/// Bits 13 to 9: the route, in units of bit 9.
pub(crate) const ROUTE_UNIT: u64 = 0x200;
/// How many routes the field can name.
pub(crate) const ROUTES: u64 = 0x20;
/// The writable bits: the switches 1, 2, 3, 6 and 8, and the route.
const WRITABLE: u16 = 0x3f4e;
/// How many values a counter of 32 bits has.
pub(crate) const MODULUS_32: u64 = 0x1_0000_0000;

/// All fields of a timer.
#[repr(C)]
#[derive(Clone, Copy, Debug, PartialEq, Eq)]
pub struct TimerParts {
    /// The writable bits of the configuration register, at their places there: 1 level type, 2
    /// interrupt enable, 3 periodic, 6 VAL_SET, 8 32-bit mode, 13 to 9 route.
    pub config: u16,
    /// The main counter's value at which the timer matches.
    pub comparator: u64,
    /// What a periodic timer adds to its comparator at a match.
    pub period: u64,
}

/// A field of a timer, in the order in which a saved state keeps them.
#[derive(Clone, Copy, Debug, PartialEq, Eq)]
pub enum TimerField {
    /// The configuration: writable bits alone, and a route of 20 to 23.
    Config,
    /// The comparator: below 2^32 in 32-bit mode.
    Comparator,
    /// The period: below 2^32 in 32-bit mode.
    Period,
}

impl TimerParts {
    /// Whether the timer's interrupt is of level type; else it is of edge type.
    #[inline]
    pub fn is_level(&self) -> bool
        ensures { result ≡ is_level self.now }
    {
        bit(LEVEL, self.config as u64)
    }

    /// Whether the timer's interrupt is enabled.
    #[inline]
    pub fn is_enabled(&self) -> bool
        ensures { result ≡ is_enabled self.now }
    {
        bit(ENABLE, self.config as u64)
    }

    /// Whether the timer is periodic; else it is one-shot.
    #[inline]
    pub fn is_periodic(&self) -> bool
        ensures { result ≡ is_periodic self.now }
    {
        bit(PERIODIC, self.config as u64)
    }

    /// Whether VAL_SET is set: the next write takes the comparator of a periodic timer too.
    #[inline]
    pub fn takes_comparator(&self) -> bool
        ensures { result ≡ takes_comparator self.now }
    {
        bit(VAL_SET, self.config as u64)
    }

    /// Whether the timer is in 32-bit mode.
    #[inline]
    pub fn is_32_bit(&self) -> bool
        ensures { result ≡ is_32_bit self.now }
    {
        bit(MODE_32, self.config as u64)
    }

    /// The line that the timer is routed to: 20 to 23 in each valid timer.
    #[inline]
    pub fn route(&self) -> u8
        ensures { result ≡ route_of self.now.config }
    {
        (self.config as u64 / ROUTE_UNIT % ROUTES) as u8
    }

    /// The first field, in the order in which a saved state keeps them, whose condition fails; None
    /// exactly where these are a timer's fields.
    pub fn first_fault(&self) -> Option<TimerField>
        ensures value { result ≡ timer_fault self.now }
        ensures none { (result ≡ None) ↔ IsTimer self.now }
    {
        if !is_config_valid(self) {
            Some(TimerField::Config)
        } else if !is_comparator_valid(self) {
            Some(TimerField::Comparator)
        } else if !is_period_valid(self) {
            Some(TimerField::Period)
        } else {
            None
        }
    }
}

/// `x` in the timer's width.
#[inline]
pub(crate) fn within(parts: &TimerParts, x: u64) -> u64
    ensures { result ≡ x % modulus parts.now }
{
    if parts.is_32_bit() { x % MODULUS_32 } else { x }
}

/// Whether the configuration has writable bits alone and a route of 20 to 23.
pub fn is_config_valid(parts: &TimerParts) -> bool
    ensures { result ≡ config_valid parts.now }
{
    let route = parts.route();
    parts.config & WRITABLE == parts.config && route >= 20 && route <= 23
}

/// Whether the comparator is in the timer's width.
pub fn is_comparator_valid(parts: &TimerParts) -> bool
    ensures { result ≡ comparator_valid parts.now }
{
    within(parts, parts.comparator) == parts.comparator
}

/// Whether the period is in the timer's width.
pub fn is_period_valid(parts: &TimerParts) -> bool
    ensures { result ≡ period_valid parts.now }
{
    within(parts, parts.period) == parts.period
}
