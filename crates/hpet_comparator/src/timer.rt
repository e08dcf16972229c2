//! A timer: its registers and its pulses.

ghost use Rattle.std.specs.Prelude.{◌≡◌, ℕ, suc, ◌*◌, ◌%◌, ◌^◌, ◌<◌, ◌≤◌, ◌↔◌, IsTrue, IsSome};
ghost use Rattle.std.specs.Prelude.{IfSome};
ghost use Rattle.clk_units.specs.Events.{IsFirst};
ghost use Rattle.hpet_comparator.specs.Counter.{counter_after};
ghost use Rattle.hpet_comparator.specs.Part.{is_register_width};
ghost use Rattle.hpet_comparator.specs.Parts.{IsTimer, is_32_bit, timer_at_power_on};
ghost use Rattle.hpet_comparator.specs.Config.{config_register, config_written};
ghost use Rattle.hpet_comparator.specs.Comparator.{comparator_written};
ghost use Rattle.hpet_comparator.specs.Stretch.{
  matches_at,
  pulsed_times,
  matches_in,
  spacing_of,
  falls_on,
};

use crate::parts::TimerParts;
use crate::stretch::Matches;
use crate::{comparator, config, stretch};
use std::marker::Model;

/// The fixed bits of the configuration register: periodic and 64-bit capable, and the lines 20 to
/// 23.
const FIXED: u64 = 0x00f0_0000_0000_0030;

/// One timer.
#[repr(C)]
#[derive(Clone, Copy, Debug, PartialEq, Eq)]
pub struct Timer {
    parts: TimerParts,
}

impl Model for Timer {
    ghost use Rattle.hpet_comparator.specs.declared.parts.TimerParts.{TimerParts};
    ghost use Rattle.hpet_comparator.specs.Parts.{IsTimer};

    ghost Value = { TimerParts };

    ghost view = { λ t. t.parts };

    ghost invariant = { λ t. IsTimer t.parts };

    ghost inverse = { λ p. record { parts = p } };
}

impl Timer {
    /// The timer at power on: a one-shot of edge type and 64 bits, disabled, on line 20, comparator
    /// and period 0 (own).
    pub fn power_on() -> Timer
        ensures { result ≡ timer_at_power_on }
    {
        Timer {
            parts: TimerParts {
                config: 0x2800,
                comparator: 0,
                period: 0,
            },
        }
    }

    /// All fields, as a saved state keeps them.
    #[inline]
    pub fn parts(&self) -> TimerParts
        ensures parts { result ≡ self.now }
        ensures valid { IsTimer result }
    {
        self.parts
    }

    /// The device with these fields, or None exactly where a condition on them fails.
    pub fn of_parts(parts: TimerParts) -> Option<Timer>
        ensures valid { IsSome result ↔ IsTimer parts }
        ensures value { IfSome result (λ t. t ≡ parts) }
    {
        if parts.first_fault().is_none() {
            Some(Timer { parts })
        } else {
            None
        }
    }

    /// The device with these fields, of which it is known that they are a timer's: for a caller
    /// that keeps them in a record of its own. No condition is looked at again.
    #[inline]
    pub fn of_valid_parts(parts: TimerParts) -> Timer
        requires { IsTimer parts }
        ensures { result ≡ parts }
    {
        Timer { parts }
    }

    /// The configuration register.
    pub fn config(&self) -> u64
        ensures { result ≡ config_register self.now }
    {
        FIXED + self.parts.config as u64
    }

    /// A write of the configuration register. Bits that aren't writable are left, and so is the
    /// route where `v` names another than 20 to 23; 32-bit mode cuts comparator and period (own).
    pub fn write_config(&mut self, v: u64)
        ensures { self.new ≡ config_written v self.old }
    {
        self.parts = config::config_written(self.parts, v);
    }

    /// The comparator register.
    pub fn comparator(&self) -> u64
        ensures { result ≡ self.now.comparator }
    {
        self.parts.comparator
    }

    /// A write of the comparator register, whole (`width` 8) or of one half (`width` 4; `high`
    /// says which). It sets the period and, unless the timer is periodic without VAL_SET, the
    /// comparator, and clears VAL_SET.
    pub fn write_comparator(&mut self, width: u8, high: bool, v: u64)
        requires width { IsTrue (is_register_width width) }
        requires fits { v < 2 ^ (8 * width) }
        ensures { self.new ≡ comparator_written width high v self.old }
    {
        self.parts = comparator::comparator_written(self.parts, width, high, v);
    }

    /// Counts the `n` pulses that follow the main counter's value `from`: how many of them match,
    /// and which is the first. A pulse matches where it brings the main counter, in 32-bit mode its
    /// low half, to the comparator; a periodic timer then adds its period to the comparator, modulo
    /// 2^32 or 2^64.
    #[inline]
    pub fn pulses(&mut self, from: u64, n: u64) -> Matches
        ensures state { self.new ≡ pulsed_times from n self.old }
        ensures count { result.count ≡ matches_in from self.old n }
        ensures few { result.count ≤ n }
        ensures first { IsFirst (matches_in from self.old) n result.first }
        // The matches fall at the first, a spacing later, two later and so on, and at no other
        // pulse.
        ensures every { (i : ℕ) → i < n
            → matches_at (counter_after from (suc i)) (pulsed_times from i self.old)
            ≡ falls_on result.first result.count (spacing_of self.old) (suc i) }
        // In 32-bit mode the low half of the main counter decides alone.
        ensures low_half { IsTrue (is_32_bit self.old)
            → result.count ≡ matches_in (from % 2 ^ 32) self.old n }
    {
        stretch::pulse(&mut self.parts, from, n)
    }
}
