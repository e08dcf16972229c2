//! The HPET: its registers, its pulses, and what its outputs are made of.

ghost use Rattle.std.specs.Prelude.{bit_and, ◌≡◌, ◌≢◌, ℕ, suc, ◌+◌, ◌-◌, ◌*◌, ◌/◌, ◌%◌, ◌^◌, ◌<◌};
ghost use Rattle.std.specs.Prelude.{◌≤◌, ◌↔◌, ◌⊎◌, true, IsTrue, IsSome, IfSome, ◌&&◌, ◌||◌};
ghost use Rattle.std.specs.Prelude.{nat_lt, if◌then◌else◌};
ghost use Rattle.clk_units.specs.Events.{IsFirst};
ghost use Rattle.clk_units.specs.Bits.{bit};
ghost use Rattle.hpet_comparator.specs.Parts.{IsTimer, is_level, is_enabled};
ghost use Rattle.hpet_comparator.specs.Stretch.{spacing_of, matches_in, falls_on};
ghost use Rattle.hpet_registers.specs.Parts.{
  IsHpet,
  hpet_at_power_on,
  timer_at,
  is_running,
  is_legacy,
};
ghost use Rattle.hpet_registers.specs.Outputs.{
  level_output,
  has_edge_ticks,
  is_message,
  has_message_below,
  has_ticks,
  message_of,
};
ghost use Rattle.hpet_registers.specs.Register.{register_at};
ghost use Rattle.hpet_registers.specs.Access.{is_access_width, is_plain, hpet_read, hpet_written};
ghost use Rattle.hpet_registers.specs.ThreeTimers.{three_timer_read};
ghost use Rattle.hpet_registers.specs.Stretch.{
  matches_next,
  hpet_pulsed_times,
  matches_of,
  timer_matches,
  no_matches,
};

use crate::parts::{HpetParts, NO_TIMER};
use crate::plan::plan_of;
use crate::{access, register, stretch};
use hpet_comparator::{Matches, Timer, TimerParts};
use std::marker::Model;

/// Pulses of the main counter a second: one each 10 ns.
pub const HPET_HZ: u64 = 100_000_000;

/// The HPET.
#[repr(C)]
#[derive(Clone, Copy, Debug, PartialEq, Eq)]
pub struct Hpet {
    parts: HpetParts,
    /// The plan of these parts: so many pulses bring no match.
    quiet: u64,
}

impl Model for Hpet {
    ghost use Rattle.hpet_registers.specs.declared.parts.HpetParts.{HpetParts};

    ghost Value = { HpetParts };

    ghost use Rattle.std.specs.Prelude.{ℕ};
    ghost use Rattle.std.proofs.Common.{ap, sym};
    ghost use Rattle.hpet_registers.specs.private.Plan.{plan_of, IsPlanned};

    ghost view = { λ h. h.parts };

    ghost invariant = { λ h. IsPlanned h.parts h.quiet };

    ghost inverse = { λ p. record { parts = p; quiet = plan_of p } };

    ghost inverse_ok = { λ h is. ap (λ (quiet : ℕ). record { parts = h.parts; quiet = quiet }) (sym is.planned) };
}

impl Hpet {
    /// The HPET at power on, with three or eight timers; message registers come with eight alone.
    pub fn power_on(timers: u8, messages: bool) -> Hpet
        requires timers { (timers ≡ 3) ⊎ (timers ≡ 8) }
        requires messages { messages ≡ true → timers ≡ 8 }
        ensures { result ≡ hpet_at_power_on timers messages }
    {
        let first = Timer::power_on().parts();
        let last = if timers == 8 { first } else { NO_TIMER };
        planned(HpetParts {
            config: 0,
            status: 0,
            counter: 0,
            timer: [first, first, first, last, last, last, last, last],
            timers,
            messages,
            message_bit: [false; 8],
            message_word: [0; 8],
        })
    }

    /// All fields, as a saved state keeps them.
    pub fn parts(&self) -> HpetParts
        ensures parts { result ≡ self.now }
        ensures valid { IsHpet result }
    {
        self.parts
    }

    /// The device with these fields, or None exactly where a condition on them fails.
    pub fn of_parts(parts: HpetParts) -> Option<Hpet>
        ensures valid { IsSome result ↔ IsHpet parts }
        ensures value { IfSome result (λ h. h ≡ parts) }
    {
        if parts.first_fault().is_none() {
            Some(planned(parts))
        } else {
            None
        }
    }

    /// A read of `width` bytes at `offset`. One of 4 or 8 bytes that is aligned to its width reads
    /// a register or a half of one; any other reads all ones (own).
    pub fn read(&self, offset: u16, width: u8) -> u64
        requires offset { offset ≤ 1023 }
        requires width { IsTrue (is_access_width width) }
        ensures value { result ≡ hpet_read offset width self.now }
        // With three timers every reply is that of the block of three timers.
        ensures three { self.now.timers ≡ 3 → result ≡ three_timer_read offset width self.now }
    {
        access::read_at(&self.parts, offset, width)
    }

    /// A write of `v`, of `width` bytes, at `offset`. One that isn't of 4 or 8 bytes, or isn't
    /// aligned to its width, does nothing (own).
    pub fn write(&mut self, offset: u16, width: u8, v: u64)
        requires offset { offset ≤ 1023 }
        requires width { IsTrue (is_access_width width) }
        requires fits { v < 2 ^ (8 * width) }
        ensures value { self.new ≡ hpet_written offset width v self.old }
        // The configuration's register alone starts and stops the counter.
        ensures running { offset - offset % 8 ≢ 16 → self.new.config ≡ self.old.config }
        // No write makes a match: it sets no status bit.
        ensures quiet { bit_and self.new.status self.old.status ≡ self.new.status }
        // A whole write is the writes of its halves, low half first, but for a comparator.
        ensures halves { width ≡ 8 → offset % 8 ≡ 0
            → is_plain (register_at self.old.timers self.old.messages offset) ≡ true
            → self.new
            ≡ hpet_written
            (offset + 4)
            4
            (v / 2 ^ 32)
            (hpet_written offset 4 (v % 2 ^ 32) self.old) }
    {
        if register::is_effective(offset, width) {
            let register = register::register_at(
                self.parts.timers,
                self.parts.messages,
                offset - offset % 8,
            );
            access::write_register(&mut self.parts, register, width, offset % 8 == 4, v);
            self.quiet = plan_of(&self.parts);
        }
    }

    /// Counts `n` pulses of 10 ns, and puts into each place of `matches` those of that timer, none
    /// where there is no timer. Answers how many timers, from the first on, have all that matched:
    /// a caller need look at no later one.
    // The caller holds the matches: to move all eight would cost as much as the pulses do.
    #[inline(always)]
    pub fn pulses(&mut self, n: u64, matches: &mut [Matches; 8]) -> u8
        ensures state { self.new ≡ hpet_pulsed_times n self.old }
        ensures count { (k : ℕ) → (timer_matches matches.new k).count ≡ matches_of k self.old n }
        ensures few { (k : ℕ) → (timer_matches matches.new k).count ≤ n }
        ensures first { (k : ℕ) → IsFirst (matches_of k self.old) n
            (timer_matches matches.new k).first }
        ensures none { (k : ℕ) → self.old.timers ≤ k → timer_matches matches.new k ≡ no_matches }
        // A timer's matches fall at the first, a spacing later, two later and so on, and at no
        // other pulse.
        ensures every { (k i : ℕ) → i < n
            → matches_next k (hpet_pulsed_times i self.old)
            ≡ falls_on
            (timer_matches matches.new k).first
            (timer_matches matches.new k).count
            (spacing_of (timer_at k self.old))
            (suc i) }

        // A timer's matches are its own: they depend on no other timer.
        ensures alone { (k : ℕ) → k < self.old.timers → matches_of k self.old n
            ≡ matches_in
            self.old.counter
            (timer_at k self.old)
            (if is_running self.old then n else 0) }
        // A match of a level timer sets its status bit, and nothing else does.
        ensures status { (k : ℕ) → k < 8 → bit k self.new.status
            ≡ (bit k self.old.status
            || (nat_lt 0 (matches_of k self.old n) && is_level (timer_at k self.old))) }
        // Pulses change no configuration.
        ensures config { (k : ℕ) → (timer_at k self.new).config ≡ (timer_at k self.old).config }
        ensures kept { self.new
            ≡ record self.old {
              counter = self.new.counter;
              status = self.new.status;
              timer = self.new.timer;
            } }
        ensures inside { result ≤ self.old.timers }
        ensures places { result ≤ 8 }
        ensures reach { (k : ℕ) → result ≤ k → (timer_matches matches.new k).count ≡ 0 }
    {
        stretch::pulse(&mut self.parts, &mut self.quiet, n, matches)
    }

    /// Counts `n` pulses, as `pulses` does, for a caller that asks for no matches.
    #[inline(always)]
    pub fn pass(&mut self, n: u64)
        ensures { self.new ≡ hpet_pulsed_times n self.old }
    {
        stretch::pass(&mut self.parts, &mut self.quiet, n);
    }

    /// Whether no enabled timer matches within `n` pulses. It may answer false where a timer that isn't enabled matches.
    #[inline(always)]
    pub fn is_quiet(&self, n: u64) -> bool
        ensures { result ≡ true → (k : ℕ) → k < self.now.timers → is_enabled (timer_at k self.now) ≡ true
            → matches_of k self.now n ≡ 0 }
    {
        let _counter = self.parts.counter;
        n <= self.quiet
    }

    /// The configuration: bit 0 ENABLE, bit 1 legacy replacement.
    pub fn config(&self) -> u8
        ensures { result ≡ self.now.config }
    {
        self.parts.config
    }

    /// How many timers there are: 3 or 8.
    pub fn timers(&self) -> u8
        ensures value { result ≡ self.now.timers }
        ensures range { (result ≡ 3) ⊎ (result ≡ 8) }
    {
        self.parts.timers
    }

    /// The fields of a timer; all 0 where there is no such timer.
    pub fn timer(&self, timer: u8) -> TimerParts
        requires { timer < 8 }
        ensures value { result ≡ timer_at timer self.now }
        ensures valid { timer < self.now.timers → IsTimer result }
    {
        self.parts.timer[timer as usize]
    }

    /// The status bit of a timer.
    pub fn status_bit(&self, timer: u8) -> bool
        requires { timer < 8 }
        ensures { result ≡ bit timer self.now.status }
    {
        (self.parts.status >> timer) % 2 == 1
    }

    /// Whether legacy replacement is on.
    pub fn legacy(&self) -> bool
        ensures { result ≡ is_legacy self.now }
    {
        self.parts.config / 2 % 2 == 1
    }

    /// The status bit of a timer with its interrupt enabled: the output of a timer of level type.
    pub fn level(&self, timer: u8) -> bool
        requires { timer < self.now.timers }
        ensures { result ≡ level_output timer self.now }
    {
        (self.parts.status >> timer) % 2 == 1 && self.parts.timer[timer as usize].is_enabled()
    }

    /// Whether a timer's matches are ticks of its line: of edge type, with its interrupt enabled,
    /// and no message timer.
    pub fn has_ticks(&self, timer: u8) -> bool
        requires { timer < 8 }
        ensures { result ≡ has_ticks timer self.now }
    {
        self.has_edge_ticks(timer) && !self.is_message(timer)
    }

    /// Whether a timer's matches are messages.
    // A block without message registers pays one test.
    #[inline(always)]
    pub fn sends_messages(&self) -> bool
        ensures { result ≡ has_message_below 8 self.now }
    {
        if !self.parts.messages {
            return false;
        }
        self.has_message()
    }

    /// The same, timer by timer.
    #[inline(never)]
    fn has_message(&self) -> bool
        ensures { result ≡ has_message_below 8 self.now }
    {
        for k in 0..8u8 {
            if self.is_message(k) {
                return true;
            }
        }
        false
    }

    /// Address and data of a timer's messages, where its matches are messages: with bit 14,
    /// interrupt enabled, of edge type, and not timer 0 or 1 under legacy replacement (own).
    pub fn message(&self, timer: u8) -> Option<(u32, u32)>
        requires { timer < 8 }
        ensures { result ≡ message_of timer self.now }
    {
        if self.is_message(timer) {
            let word = self.parts.message_word[timer as usize];
            Some(((word / 0x1_0000_0000) as u32, (word % 0x1_0000_0000) as u32))
        } else {
            None
        }
    }

    /// The pulses from one match of a timer to the next: its period, or 2^32 or 2^64 by its width
    /// where it is one-shot or the period is 0.
    pub fn spacing(&self, timer: u8) -> u128
        requires { timer < 8 }
        ensures { result ≡ spacing_of (timer_at timer self.now) }
    {
        self.parts.timer[timer as usize].spacing()
    }

    /// Whether a timer is of edge type with its interrupt enabled.
    fn has_edge_ticks(&self, timer: u8) -> bool
        requires { timer < 8 }
        ensures { result ≡ has_edge_ticks timer self.now }
    {
        let parts = self.parts.timer[timer as usize];
        parts.is_enabled() && !parts.is_level()
    }

    /// Whether the matches of this timer are messages.
    pub fn is_message(&self, timer: u8) -> bool
        requires { timer < 8 }
        ensures { result ≡ is_message timer self.now }
    {
        let replaced = self.legacy() && timer < 2;
        self.parts.message_bit[timer as usize] && self.has_edge_ticks(timer) && !replaced
    }
}

/// The HPET with these fields.
fn planned(parts: HpetParts) -> Hpet
    requires { IsHpet parts }
    ensures { result ≡ parts }
{
    Hpet {
        parts,
        quiet: plan_of(&parts),
    }
}
