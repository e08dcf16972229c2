//! The divider as a device: pulses go in, events come out.

ghost use Rattle.std.specs.Prelude.{◌≡◌, ℕ, ◌<◌, ◌≤◌, ◌↔◌, true, false, IsSome, IfSome};
ghost use Rattle.clk_units.specs.Events.{IsFirst};
ghost use Rattle.rtc_cycle.specs.Divider.{with_dv, with_rate, with_set, uip_of, pulsed_times};
ghost use Rattle.rtc_cycle.specs.Divider.{ticks_in, updates_in, frequency, RunsCycles};
ghost use Rattle.rtc_cycle.specs.Parts.{IsDivider, divider_at_power_on};

use crate::events::CycleEvents;
use crate::parts::{self, DividerParts, HELD, RUNNING};
use crate::stretch;
use std::marker::Model;

/// The divider of an MC146818 with a crystal of 32,768 Hz. Contracts see its fields.
#[repr(C)]
#[derive(Clone, Copy, Debug, PartialEq, Eq)]
pub struct Divider {
    parts: DividerParts,
}

impl Model for Divider {
    ghost use Rattle.rtc_cycle.specs.declared.parts.DividerParts.{DividerParts};

    ghost Value = { DividerParts };

    ghost use Rattle.rtc_cycle.specs.Parts.{IsDivider};

    ghost view = { λ c. c.parts };

    ghost invariant = { λ c. IsDivider c.parts };

    ghost inverse = { λ p. record { parts = p } };
}

impl Divider {
    /// The divider at power on: it runs, at rate 6, half a second before the first update cycle begins
    /// (own).
    pub fn power_on() -> Divider
        ensures { result ≡ divider_at_power_on }
    {
        Divider {
            parts: DividerParts {
                d: HELD,
                cycle: false,
                dv: RUNNING,
                rs: 6,
                set: false,
            },
        }
    }

    /// All fields, as a saved state keeps them.
    pub fn parts(&self) -> DividerParts
        ensures value { result ≡ self.now }
        ensures valid { IsDivider result }
    {
        self.parts
    }

    /// The device with these fields, or None exactly where a condition on them fails.
    pub fn of_parts(parts: DividerParts) -> Option<Divider>
        ensures valid { IsSome result ↔ IsDivider parts }
        ensures value { IfSome result (λ c. c ≡ parts) }
    {
        if parts::is_valid(parts) {
            Some(Divider { parts })
        } else {
            None
        }
    }

    /// The device with these fields, of which it is known that they are a divider's: for a caller that keeps them
    /// in a record of its own. No condition is looked at again.
    #[inline]
    pub fn of_valid_parts(parts: DividerParts) -> Divider
        requires { IsDivider parts }
        ensures { result ≡ parts }
    {
        Divider { parts }
    }

    /// Writes the bits DV of register A. 010 lets the divider run; any other value holds it in the middle of
    /// a second, with no update cycle in progress (own below 110).
    pub fn dv(&mut self, dv: u8)
        requires { dv ≤ 7 }
        ensures { self.new ≡ with_dv dv self.old }
    {
        self.parts = parts::with_dv(self.parts, dv);
    }

    /// Writes the rate RS of register A: 0 for no periodic events, 1 to 15 for 2 to 8,192 a second.
    pub fn rate(&mut self, rs: u8)
        requires { rs ≤ 15 }
        ensures { self.new ≡ with_rate rs self.old }
    {
        self.parts.rs = rs;
    }

    /// Writes SET of register B. While it is 1 no update cycle begins, and one in progress is aborted (data
    /// sheet, "Register B", "SET").
    pub fn set(&mut self, on: bool)
        ensures { self.new ≡ with_set on self.old }
    {
        self.parts = parts::with_set(self.parts, on);
    }

    /// UIP of register A: an update cycle is in progress, or may begin within 8 pulses (244 microseconds).
    /// So a reader that finds it 0 has that long before a cycle begins, and 73 pulses before bytes change.
    pub fn uip(&self) -> bool
        ensures value { result ≡ uip_of self.now }
        ensures early { result ≡ false → (k : ℕ) → k ≤ 8 → (pulsed_times k self.now).cycle ≡ false }
        ensures quiet { result ≡ false → (n : ℕ) → n ≤ 73 → updates_in self.now n ≡ 0 }
    {
        parts::is_updating(self.parts)
    }

    /// Lets `n` pulses of the crystal pass, and returns their events. A second of a divider that runs with SET 0
    /// ends one update cycle; only where SET was 1 as the second in progress began is there none for it.
    pub fn pulses(&mut self, n: u64) -> CycleEvents
        ensures state { self.new ≡ pulsed_times n self.old }
        ensures ticks { result.ticks ≡ ticks_in self.old n }
        ensures few_ticks { result.ticks ≤ n }
        ensures first_tick { IsFirst (ticks_in self.old) n result.first_tick }
        ensures updates { result.updates ≡ updates_in self.old n }
        ensures few_updates { result.updates ≤ n }
        ensures first_update { IsFirst (updates_in self.old) n result.first_update }
        ensures frequency { n ≡ 32768 → self.old.dv ≡ 2 → result.ticks ≡ frequency self.old.rs }
        ensures second { n ≡ 32768 → RunsCycles self.old → result.updates ≡ 1 }
    {
        let ticks = stretch::ticks(self.parts, n);
        let updates = stretch::updates(self.parts, n);
        self.parts = stretch::after_pulses(self.parts, n);
        CycleEvents {
            ticks: ticks.count,
            first_tick: ticks.first,
            updates: updates.count,
            first_update: updates.first,
        }
    }

    /// Which of `n` pulses, counted from 1, brings the first periodic event, without taking them.
    pub fn first_tick(&self, n: u64) -> Option<u64>
        ensures { IsFirst (ticks_in self.now) n result }
    {
        stretch::ticks(self.parts, n).first
    }

    /// Whether the divider is held: no pulse moves it or brings an event.
    #[inline(always)]
    pub fn is_held(&self) -> bool
        ensures state { result ≡ true → (n : ℕ) → pulsed_times n self.now ≡ self.now }
        ensures ticks { result ≡ true → (n : ℕ) → ticks_in self.now n ≡ 0 }
        ensures updates { result ≡ true → (n : ℕ) → updates_in self.now n ≡ 0 }
    {
        self.parts.dv != RUNNING
    }

    /// Whether `n` pulses bring no periodic event, as far as that shows at once: where the divider runs and `n` is below a
    /// second's pulses the answer is exact, but that at rate 0 it may be no.
    #[inline(always)]
    pub fn has_no_tick(&self, n: u64) -> bool
        ensures { result ≡ true → ticks_in self.now n ≡ 0 }
    {
        stretch::has_no_tick(self.parts, n)
    }
}
