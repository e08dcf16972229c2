//! The counter, and its calls.

ghost use Rattle.std.specs.Prelude.{◌≡◌, ◌↔◌, ℕ, ◌≤◌, ◌<◌, IsSome, IfSome};
ghost use Rattle.clk_units.specs.Events.{IsFirst};
ghost use Rattle.pit_counter.specs.Programming.{
  counter_at_power_on,
  controlled,
  byte_written,
  gated,
};
ghost use Rattle.pit_counter.specs.Table.{has_risen, pulsed_times, rises_in};
ghost use Rattle.pit_counter.specs.Reading.{
  count_of,
  with_count_latched,
  with_status_latched,
  byte_read,
  after_read,
};
ghost use Rattle.pit_counter.specs.Parts.{IsCounter};

use crate::parts::CounterParts;
use crate::plan::{Plan, plan_of, take_and_plan, take_planned};
use crate::rises::{NONE, Rises};
use crate::{programming, reading, table};
use std::marker::Model;

/// One counter of an Intel 8254.
#[derive(Clone, Copy, Debug, PartialEq, Eq)]
#[repr(C)]
pub struct Counter {
    parts: CounterParts,
    /// That of these parts.
    plan: Plan,
}

impl Model for Counter {
    ghost use Rattle.pit_counter.specs.declared.parts.CounterParts.{CounterParts};

    ghost Value = { CounterParts };

    ghost use Rattle.std.proofs.Common.{ap, sym};
    ghost use Rattle.pit_counter.specs.declared.plan.Plan.{Plan};
    ghost use Rattle.pit_counter.specs.private.Plan.{plan_of, IsPlanned};

    ghost view = { λ c. c.parts };

    ghost invariant = { λ c. IsPlanned c.parts c.plan };

    ghost inverse = { λ p. record { parts = p; plan = plan_of p } };

    ghost inverse_ok = { λ c is. ap (λ (plan : Plan). record { parts = c.parts; plan = plan }) (sym is.planned) };
}

#[tactic(auto, using(crate::proofs::Keeps::keeps))]
impl Counter {
    /// A counter at power on, with GATE at this level: programmed bits 36h, OUT high, no count
    /// (own).
    pub fn power_on(gate: bool) -> Counter
        ensures { result ≡ counter_at_power_on gate }
    {
        planned(programming::programmed(0x36, gate))
    }

    /// All fields, as a saved state keeps them.
    pub fn parts(&self) -> CounterParts
        ensures value { result ≡ self.now }
        ensures valid { IsCounter self.now }
    {
        self.parts
    }

    /// The device with these fields, or None exactly where a condition on them fails.
    pub fn of_parts(parts: CounterParts) -> Option<Counter>
        ensures valid { IsSome result ↔ IsCounter parts }
        ensures value { IfSome result (λ c. c ≡ parts) }
    {
        match parts.first_fault() {
            None => Some(planned(parts)),
            Some(_) => None,
        }
    }

    /// Writes a control word, of which `bits` is D5 to D0: the mode, the number system and the
    /// bytes of the count. Answers whether OUT rose.
    pub fn control(&mut self, bits: u8) -> bool
        requires least { 16 ≤ bits }
        requires greatest { bits < 64 }
        ensures state { self.new ≡ controlled bits self.old }
        ensures rose { result ≡ has_risen self.old (controlled bits self.old) }
    {
        let out = self.parts.out;
        self.parts = programming::programmed(bits, self.parts.gate);
        self.plan = plan_of(&self.parts);
        !out && self.parts.out
    }

    /// Writes a byte of a count.
    pub fn write_byte(&mut self, byte: u8)
        ensures { self.new ≡ byte_written byte self.old }
    {
        self.parts = programming::byte_written(byte, self.parts);
        self.plan = plan_of(&self.parts);
    }

    /// Sets GATE to this level; what its edges do is (own). Answers whether OUT rose.
    pub fn gate(&mut self, level: bool) -> bool
        ensures state { self.new ≡ gated level self.old }
        ensures rose { result ≡ has_risen self.old (gated level self.old) }
    {
        let out = self.parts.out;
        self.parts = programming::gated(level, self.parts);
        self.plan = plan_of(&self.parts);
        !out && self.parts.out
    }

    /// Takes `n` CLK pulses. Answers how often OUT rose, and at which of them first.
    #[inline(always)]
    pub fn pulses(&mut self, n: u64) -> Rises
        ensures state { self.new ≡ pulsed_times n self.old }
        ensures count { result.count ≡ rises_in self.old n }
        ensures few { result.count ≤ n }
        ensures first { IsFirst (rises_in self.old) n result.first }
    {
        if take_planned(&mut self.plan, &mut self.parts, n) {
            return NONE;
        }
        take_and_plan(&mut self.plan, &mut self.parts, n)
    }

    /// So many CLK pulses, or fewer, bring no rise of OUT. More of them may be quiet too.
    #[inline(always)]
    pub fn quiet(&self) -> u64
        ensures { (n : ℕ) → n ≤ result → rises_in self.now n ≡ 0 }
    {
        self.plan.quiet
    }

    /// The count as it reads now: a 16-bit number, in BCD as four digits.
    pub fn count(&self) -> u16
        ensures { result ≡ count_of self.now }
    {
        reading::count_of(&self.parts)
    }

    /// The level of OUT.
    pub fn out(&self) -> bool
        ensures { result ≡ self.now.out }
    {
        self.parts.out
    }

    /// Null count: what was written last isn't loaded yet.
    pub fn null(&self) -> bool
        ensures { result ≡ self.now.null }
    {
        self.parts.null
    }

    /// Latches the count as it reads now, unless a latched count is there.
    pub fn latch_count(&mut self)
        ensures { self.new ≡ with_count_latched self.old }
    {
        self.parts = reading::with_count_latched(self.parts);
    }

    /// Latches the status byte, unless a latched one is there.
    pub fn latch_status(&mut self)
        ensures { self.new ≡ with_status_latched self.old }
    {
        self.parts = reading::with_status_latched(self.parts);
    }

    /// Reads a byte: a latched status first, then a latched count, else the present count, its
    /// bytes by the programmed bits.
    pub fn read(&mut self) -> u8
        ensures state { self.new ≡ after_read self.old }
        ensures byte { result ≡ byte_read self.old }
    {
        let byte = reading::byte_read(&self.parts);
        reading::leave_read(&mut self.parts);
        byte
    }

    /// Reads a byte as after `n` more CLK pulses, and takes none of them: no pulse looks at what a read changes, so they
    /// may come after it.
    #[inline(always)]
    pub fn read_later(&mut self, n: u64) -> u8
        ensures state { self.new ≡ after_read self.old }
        ensures byte { result ≡ byte_read (pulsed_times n self.old) }
    {
        reading::read_later(&mut self.parts, &self.plan, n)
    }
}

/// The counter with these fields.
fn planned(parts: CounterParts) -> Counter
    requires { IsCounter parts }
    ensures { result ≡ parts }
{
    Counter {
        parts,
        plan: plan_of(&parts),
    }
}
