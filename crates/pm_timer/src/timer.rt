//! The timer as a device: pulses go in, a line comes out, and registers are read and written.

ghost use Rattle.std.specs.Prelude.{◌≡◌, ℕ, ◌<◌, ◌≤◌, ◌*◌, ◌^◌, ◌↔◌, ◌||◌, not, None};
ghost use Rattle.std.specs.Prelude.{IsTrue, IsSome, IfSome};
ghost use Rattle.clk_units.specs.Events.{IsFirst};
ghost use Rattle.pm_timer.specs.Parts.{IsPmTimer, is_pm_bits, pm_at_power_on};
ghost use Rattle.pm_timer.specs.Stretch.{pm_pulsed_times, pm_rises_in, line_9_up, first_within};
ghost use Rattle.pm_timer.specs.Registers.{is_pm_width, pm_read, pm_written, pm_reset};

use crate::parts::{self, PmParts};
use crate::{registers, stretch};
use std::marker::Model;

/// The timer's pulses a second (ACPI specification, version 6, section 4.8.3.3).
pub const PM_HZ: u64 = 3_579_545;

/// A power management timer, or none (own). Contracts see its fields.
#[repr(C)]
#[derive(Clone, Copy, Debug, PartialEq, Eq)]
pub struct PmTimer {
    parts: PmParts,
}

impl Model for PmTimer {
    ghost use Rattle.pm_timer.specs.declared.parts.PmParts.{PmParts};
    ghost use Rattle.pm_timer.specs.Parts.{IsPmTimer};

    ghost Value = { PmParts };

    ghost view = { λ t. t.parts };

    ghost invariant = { λ t. IsPmTimer t.parts };

    ghost inverse = { λ p. record { parts = p } };
}

impl PmTimer {
    /// The timer at power on, with a count of `bits` bits, 24 or 32, that is at `count`. With `bits` 0 and
    /// `count` 0 there is no timer: nothing moves it, and all its registers read 0 (own).
    pub fn at_power_on(bits: u8, count: u32) -> PmTimer
        requires bits { IsTrue (is_pm_bits bits) }
        requires fits { count < 2 ^ bits }
        ensures { result ≡ pm_at_power_on bits count }
    {
        PmTimer {
            parts: PmParts {
                bits,
                count,
                status: false,
                enable: false,
            },
        }
    }

    /// All fields, as a saved state keeps them.
    #[inline]
    pub fn parts(&self) -> PmParts
        ensures value { result ≡ self.now }
        ensures valid { IsPmTimer result }
    {
        self.parts
    }

    /// The timer with these fields, or None exactly where a condition on them fails.
    pub fn of_parts(parts: PmParts) -> Option<PmTimer>
        ensures valid { IsSome result ↔ IsPmTimer parts }
        ensures value { IfSome result (λ t. t ≡ parts) }
    {
        if parts::is_valid(parts) {
            Some(PmTimer { parts })
        } else {
            None
        }
    }

    /// Whether line 9 is up: TMR_STS and TMR_EN are set.
    #[inline]
    pub fn is_up(&self) -> bool
        ensures { result ≡ line_9_up self.now }
    {
        self.parts.status && self.parts.enable
    }

    /// Lets `n` pulses pass, and returns the one at which line 9 rises, counted from 1. It rises at most once,
    /// since only a write or a reset takes it down.
    pub fn pulses(&mut self, n: u64) -> Option<u64>
        ensures state { self.new ≡ pm_pulsed_times n self.old }
        ensures first { IsFirst (pm_rises_in self.old) n result }
        ensures once { pm_rises_in self.old n ≤ 1 }
    {
        let first = stretch::first_within(n, stretch::first_rise(self.parts));
        self.parts = stretch::after_pulses(self.parts, n);
        first
    }

    /// The pulse at which line 9 will rise, counted from 1, if no access comes before: at most 2^31. None
    /// exactly where TMR_EN is 0 or TMR_STS is 1 already.
    pub fn first_rise(&self) -> Option<u64>
        ensures first { (n : ℕ) → IsFirst (pm_rises_in self.now) n (first_within n result) }
        ensures none { (result ≡ None) ↔ IsTrue (not self.now.enable || self.now.status) }
        ensures near { IfSome result (λ k. k ≤ 2 ^ 31) }
    {
        stretch::first_rise(self.parts)
    }

    /// What a read of `width` bytes, 1, 2 or 4, from byte `offset` of the block on gives, the lowest byte
    /// first. It changes nothing. Any offset and alignment is read; bytes past the block are 0 (own).
    pub fn read(&self, offset: u8, width: u8) -> u32
        requires { IsTrue (is_pm_width width) }
        ensures value { result ≡ pm_read offset width self.now }
        ensures fits { result < 2 ^ (8 * width) }
    {
        registers::read(self.parts, offset, width)
    }

    /// A write of `value` in `width` bytes, 1, 2 or 4, from byte `offset` of the block on, the lowest byte
    /// first. A written 1 clears TMR_STS; TMR_EN becomes what is written over it; no write changes the
    /// count (own).
    pub fn write(&mut self, offset: u8, width: u8, value: u32)
        ensures { self.new ≡ pm_written offset width value self.old }
    {
        self.parts = registers::written(self.parts, offset, width, value);
    }

    /// A reset of the PC: TMR_STS and TMR_EN are cleared, and the count goes on (own).
    pub fn reset(&mut self)
        ensures { self.new ≡ pm_reset self.old }
    {
        self.parts.status = false;
        self.parts.enable = false;
    }
}
