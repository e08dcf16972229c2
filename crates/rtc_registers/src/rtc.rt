//! The clock as a device: reads, writes and pulses go in, bytes and events come out.

ghost use Rattle.std.specs.Prelude.{◌≡◌, ℕ, true, ◌<◌, ◌≤◌, ◌%◌, ◌↔◌, IsSome, IfSome, IsNone};
ghost use Rattle.clk_units.specs.Events.{IsFirst};
ghost use Rattle.rtc_cycle.specs.Divider.{ticks_in, updates_in};
ghost use Rattle.rtc_registers.specs.Access.{index_written, rtc_read, after_rtc_read, rtc_written};
ghost use Rattle.rtc_registers.specs.Access.{flagged};
ghost use Rattle.rtc_registers.specs.Parts.{IsRtc, rtc_at_power_on, first_fault};
ghost use Rattle.rtc_registers.specs.Pulses.{rtc_pulsed_times, alarms_in};
ghost use Rattle.rtc_registers.specs.Registers.{divider_of, time_of, set_of, irqf_of, pf_of, af_of};
ghost use Rattle.rtc_registers.specs.Registers.{uf_of, pie_of, aie_of, uie_of};

use crate::events::RtcEvents;
use crate::parts::{self, RtcField, RtcParts};
use crate::plan::plan_of;
use crate::registers::{self, ALARM, PERIODIC, UPDATE_ENDED};
use crate::{access, plan, stretch};
use rtc_calendar::TimeBytes;
use std::marker::Model;

/// The clock. Contracts see its fields.
#[repr(C)]
#[derive(Clone, Copy, Debug, PartialEq, Eq)]
pub struct Rtc {
    parts: RtcParts,
    /// The plan of these parts: so many pulses move the divider's count alone.
    quiet: u16,
}

impl Model for Rtc {
    ghost use Rattle.rtc_registers.specs.declared.parts.RtcParts.{RtcParts};

    ghost Value = { RtcParts };

    ghost use Rattle.std.specs.Prelude.{ℕ};
    ghost use Rattle.std.proofs.Common.{ap, sym};
    ghost use Rattle.rtc_registers.specs.private.Plan.{plan_of, IsPlanned};

    ghost view = { λ c. c.parts };

    ghost invariant = { λ c. IsPlanned c.parts c.quiet };

    ghost inverse = { λ p. record { parts = p; quiet = plan_of p } };

    ghost inverse_ok = { λ c is. ap (λ (quiet : ℕ). record { parts = c.parts; quiet = quiet }) (sym is.planned) };
}

impl Rtc {
    /// The clock at power on, with these time bytes: the divider runs at rate 6, time is BCD and of 24 hours,
    /// nothing may interrupt, and every other byte is 0 (own).
    pub fn power_on(bytes: TimeBytes) -> Rtc
        ensures { result ≡ rtc_at_power_on bytes }
    {
        planned(access::rtc_at_power_on(bytes))
    }

    /// All fields, as a saved state keeps them.
    pub fn parts(&self) -> RtcParts
        ensures value { result ≡ self.now }
        ensures valid { IsRtc result }
    {
        self.parts
    }

    /// The device with these fields, or None exactly where a condition on them fails.
    pub fn of_parts(parts: RtcParts) -> Option<Rtc>
        ensures valid { IsSome result ↔ IsRtc parts }
        ensures value { IfSome result (λ c. c ≡ parts) }
    {
        match parts::first_fault(&parts) {
            None => Some(planned(parts)),
            Some(_) => None,
        }
    }

    /// The field whose condition fails first, in the order of a saved state, or None exactly where `of_parts`
    /// has a clock. A condition over several fields belongs to the last of them.
    pub fn first_fault(parts: &RtcParts) -> Option<RtcField>
        ensures value { result ≡ first_fault parts.now }
        ensures valid { IsNone result ↔ IsRtc parts.now }
    {
        parts::first_fault(parts)
    }

    /// The byte that the data port reads and writes, 0 to 7Fh.
    pub fn index(&self) -> u8
        ensures value { result ≡ self.now.index }
        ensures few { result ≤ 0x7f }
    {
        self.parts.index
    }

    /// Writes the index port, 70h: which byte the data port reads and writes. Bit 7 is ignored.
    pub fn write_index(&mut self, byte: u8)
        ensures { self.new ≡ index_written byte self.old }
    {
        self.parts.index = byte % 0x80;
    }

    /// Reads the data port, 71h: the byte at the index. Register A shows UIP, and register C shows IRQF and
    /// has its flags cleared by the read (data sheet, "Register A", "Register C"). Behind a read of register A
    /// that shows UIP 0 the time bytes don't change for 73 pulses at least, of which 8 are promised by the
    /// data sheet (244 microseconds). Bytes 40h to 7Fh are memory as 0Eh to 3Fh are (own).
    pub fn read(&mut self) -> u8
        ensures value { result ≡ rtc_read self.old }
        ensures state { self.new ≡ after_rtc_read self.old }
        ensures still { self.old.index ≡ 0x0a → result < 0x80 → (n : ℕ) → n ≤ 73
            → time_of (rtc_pulsed_times n self.old) ≡ time_of self.old }
    {
        let byte = access::rtc_read(&self.parts);
        plan::leave_read(&mut self.parts, &mut self.quiet);
        byte
    }

    /// Writes the data port, 71h. Registers C and D are read only, and so is UIP. A write of register B that
    /// turns SET from 0 to 1 clears UIE and aborts an update cycle (data sheet, "Register B"); written again
    /// while it is 1, UIE is as written. SQWE and DSE are stored and do nothing (own).
    pub fn write(&mut self, byte: u8)
        ensures { self.new ≡ rtc_written byte self.old }
    {
        access::write(&mut self.parts, byte);
        self.quiet = plan_of(&self.parts);
    }

    /// Lets `n` pulses of the crystal pass, which set flags and change the time bytes, and returns their events.
    #[inline(always)]
    pub fn pulses(&mut self, n: u64) -> RtcEvents
        ensures state { self.new ≡ rtc_pulsed_times n self.old }
        ensures ticks { result.cycle.ticks ≡ ticks_in (divider_of self.old) n }
        ensures few_ticks { result.cycle.ticks ≤ n }
        ensures first_tick { IsFirst (ticks_in (divider_of self.old)) n result.cycle.first_tick }
        ensures updates { result.cycle.updates ≡ updates_in (divider_of self.old) n }
        ensures few_updates { result.cycle.updates ≤ n }
        ensures first_update { IsFirst (updates_in (divider_of self.old)) n result.cycle.first_update }
        ensures first_alarm { IsFirst (alarms_in self.old) n result.first_alarm }
        // while SET is 1 the time stays
        ensures still { set_of self.old ≡ true → time_of self.new ≡ time_of self.old }
    {
        stretch::pulses(&mut self.parts, &mut self.quiet, n)
    }

    /// Which of `n` pulses of the crystal, counted from 1, brings the first periodic event, without taking them.
    pub fn first_tick(&self, n: u64) -> Option<u64>
        ensures { IsFirst (ticks_in (divider_of self.now)) n result }
    {
        registers::divider(&self.parts).first_tick(n)
    }

    /// Lets `n` pulses of the crystal pass, as `pulses` does, for a caller that asks for no events: over most stretches it
    /// takes a few instructions.
    #[inline(always)]
    pub fn pass(&mut self, n: u64)
        ensures { self.new ≡ rtc_pulsed_times n self.old }
    {
        stretch::pass(&mut self.parts, &mut self.quiet, n);
    }

    /// Whether `n` pulses of the crystal bring no periodic event and no update, as far as that shows without taking them.
    #[inline(always)]
    pub fn is_quiet(&self, n: u64) -> bool
        ensures ticks { result ≡ true → ticks_in (divider_of self.now) n ≡ 0 }
        ensures updates { result ≡ true → updates_in (divider_of self.now) n ≡ 0 }
    {
        plan::is_quiet(&self.parts, self.quiet, n)
    }

    /// IRQF of register C, which is the level of the interrupt line: a flag is up whose interrupt register B
    /// lets through.
    pub fn irqf(&self) -> bool
        ensures { result ≡ irqf_of self.now }
    {
        registers::irqf_of(&self.parts)
    }

    /// PF of register C, the flag of periodic events.
    pub fn pf(&self) -> bool
        ensures { result ≡ pf_of self.now }
    {
        registers::is_flagged(&self.parts, PERIODIC)
    }

    /// AF of register C, the flag of updates that the alarm matches.
    pub fn af(&self) -> bool
        ensures { result ≡ af_of self.now }
    {
        registers::is_flagged(&self.parts, ALARM)
    }

    /// UF of register C, the flag of ended update cycles.
    pub fn uf(&self) -> bool
        ensures { result ≡ uf_of self.now }
    {
        registers::is_flagged(&self.parts, UPDATE_ENDED)
    }

    /// PIE of register B, which lets periodic events interrupt.
    pub fn pie(&self) -> bool
        ensures { result ≡ pie_of self.now }
    {
        registers::is_enabled(&self.parts, PERIODIC)
    }

    /// AIE of register B, which lets the alarm interrupt.
    pub fn aie(&self) -> bool
        ensures { result ≡ aie_of self.now }
    {
        registers::is_enabled(&self.parts, ALARM)
    }

    /// UIE of register B, which lets the end of an update cycle interrupt.
    pub fn uie(&self) -> bool
        ensures { result ≡ uie_of self.now }
    {
        registers::is_enabled(&self.parts, UPDATE_ENDED)
    }

    /// Sets PF, as a periodic event does: for one that is delivered late.
    pub fn set_pf(&mut self)
        ensures { self.new ≡ flagged self.old }
    {
        plan::set_pf(&mut self.parts, &mut self.quiet);
    }
}

/// The clock with these fields.
fn planned(parts: RtcParts) -> Rtc
    requires { IsRtc parts }
    ensures { result ≡ parts }
{
    Rtc {
        parts,
        quiet: plan_of(&parts),
    }
}
