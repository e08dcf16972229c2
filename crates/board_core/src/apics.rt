//! The timers of local APICs.
ghost use Rattle.std.specs.Prelude.{◌≡◌, ℕ, ◌+◌, ◌-◌, ◌^◌, ◌<◌, ◌≤◌, slice_index_or};
ghost use Rattle.clk_units.specs.declared.ranges.TheConstants.{RANGE_NS};
ghost use Rattle.lapic_timer.specs.Deadline.{count_at};
ghost use Rattle.local_apics.specs.Nanosecond.{run as run_apics};
ghost use Rattle.local_apics.specs.Places.{line_at};
ghost use Rattle.board_core.specs.Apics.{
  apics_of,
  apics_in,
  apics_acted,
  after_look,
};
ghost use Rattle.board_core.specs.Tsc.{no_processor, tsc_read};
ghost use Rattle.board_core.specs.Conditions.{AreRates};
ghost use Rattle.board_core.specs.Next.{IsNextTick};
ghost use Rattle.board_core.specs.private.Room.{HasRoom};

use crate::board::BoardState;
use crate::processors::tsc_of;
use board_types::{APIC_FORMAT, Access, BoardParts, ProcessorParts};
use clk_units::RANGE_NS;
use host_counter::Anchor;
use lapic_timer::ApicRegister;
use local_apics::{ApicsParts, LocalApics, TscClock};

impl BoardState {
    /// The first nanosecond after the board's time, and below 2^59, in which the timer of processor `cpu` ticks if no
    /// access comes: it fires and isn't masked. A monitor whose guest waits for that interrupt calls `access` then.
    #[inline(never)]
    pub fn next_tick(&self, cpu: u8) -> Option<u64>
        requires { cpu < self.now.cpus }
        ensures { IsNextTick self.now cpu result }
    {
        let tsc = tsc_of(&self.processors[cpu as usize]);
        let clock = TscClock {
            anchor: self.anchor,
            guest_khz: self.guest_khz,
        };
        self.apics
            .next_tick(cpu, &clock, tsc, self.time_ns, RANGE_NS - 1)
    }

    /// The look at the deadlines of all processors. Where none is armed it is one test.
    #[inline(always)]
    pub(crate) fn look(&mut self)
        requires { HasRoom self.old }
        ensures { self.new ≡ after_look self.old }
    {
        if self.apics.has_deadlines() {
            self.look_armed();
        }
    }

    /// The same where some are.
    #[inline(never)]
    fn look_armed(&mut self)
        requires { HasRoom self.old }
        ensures { self.new ≡ after_look self.old }
    {
        let clock = TscClock {
            anchor: self.anchor,
            guest_khz: self.guest_khz,
        };
        self.apics.look(&clock, &self.processors, self.time_ns);
    }
}

/// How many timers a board of so many processors has: none before format 3.
pub(crate) fn apics_of(format: u8, cpus: u8) -> u8
    ensures { result ≡ apics_of format cpus }
{
    if format >= APIC_FORMAT { cpus } else { 0 }
}

/// The fields of the timers, with those of their tick lines.
pub(crate) fn apics_in(parts: &BoardParts) -> ApicsParts
    ensures { result ≡ apics_in parts.now }
{
    let timers = parts.apic;
    let lines = parts.apic_ticks;
    ApicsParts { timers, lines }
}

/// Runs the timers from nanosecond `from` to `to`. Where no timer counts and no deadline is armed it is one test.
#[inline(always)]
pub(crate) fn run_apics(
    apics: &mut LocalApics,
    anchor: Anchor,
    guest_khz: u64,
    processors: &[ProcessorParts; 64],
    from: u64,
    to: u64,
)
    requires order { from ≤ to }
    requires in_range { to < RANGE_NS }
    requires rates { AreRates anchor guest_khz }
    requires anchored { anchor.base_ns ≤ from }
    requires room { (k : ℕ) → k < 64 → (line_at k apics.old).counts.due + (to - from) < 2 ^ 63 }
    ensures { apics.new
        ≡ run_apics (λ k t. tsc_read anchor guest_khz (count_at anchor t)
        (slice_index_or processors.now k no_processor)) from (to - from) apics.old }
{
    if apics.is_armed() {
        let clock = TscClock { anchor, guest_khz };
        apics.run(&clock, processors, from, to);
    }
}

/// What an access of processor `cpu` does to its timer: it writes a register, or it ends an interrupt.
pub(crate) fn act_on_apics(apics: &mut LocalApics, cpu: u8, a: Access)
    requires { cpu < 64 }
    ensures { apics.new ≡ apics_acted cpu a apics.old }
{
    match a {
        Access::MsrWrite { msr, value } => match ApicRegister::of_msr(msr) {
            Some(register) => apics.write(cpu, register, value),
            None => {}
        },
        Access::Eoi => apics.eoi(cpu),
        _ => {}
    }
}
