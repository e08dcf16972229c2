//! The board, and what can be read of it without an access.
ghost use Rattle.std.specs.Prelude.{◌≡◌, ◌<◌};
ghost use Rattle.clk_units.specs.declared.ranges.TheConstants.{RANGE_NS};
ghost use Rattle.board_types.specs.Setup.{IsSetup};
ghost use Rattle.local_apics.specs.Parts.{apics_at_power_on};
ghost use Rattle.board_devices.specs.Lines.{levels};
ghost use Rattle.board_core.specs.Time.{devices_in, now_of};
ghost use Rattle.board_core.specs.Tsc.{processor_at, tsc_of};
ghost use Rattle.board_core.specs.Pages.{page_in, with_greatest};
ghost use Rattle.board_core.specs.Conditions.{IsVersion, IsJoined};
ghost use Rattle.board_core.specs.Next.{next_of, next_message_of};
ghost use Rattle.board_core.specs.Apics.{apics_of};
ghost use Rattle.board_core.specs.PowerOn.{board_at_power_on};

use crate::apics::apics_of;
use crate::hv::NO_HV;
use crate::processors::{NO_PROCESSOR, page_in, tsc_of};
use board_devices::Devices;
use board_types::{HvParts, ProcessorParts, Setup};
use clk_units::RANGE_NS;
use host_counter::Anchor;
use irq_edges::Lines;
use local_apics::LocalApics;
use pvclock_page::Page;
use std::marker::Model;
use tsc_scale::Tsc;

/// A board. All that it holds lies in place, so that a monitor in C can keep it in memory of its own.
#[derive(Clone, Copy)]
#[repr(C)]
pub struct BoardState {
    pub(crate) format: u8,
    pub(crate) cpus: u8,
    pub(crate) anchor: Anchor,
    pub(crate) host: u64,
    /// The time at `host`.
    pub(crate) time_ns: u64,
    pub(crate) guest_khz: u64,
    pub(crate) accesses: u64,
    pub(crate) greatest: u64,
    pub(crate) devices: Devices,
    pub(crate) wall_number: u64,
    pub(crate) wall_version: u32,
    pub(crate) wall_sec: u32,
    pub(crate) wall_nsec: u32,
    pub(crate) apics: LocalApics,
    pub(crate) processors: [ProcessorParts; 64],
    pub(crate) rises: [u64; 6],
    pub(crate) hv: HvParts,
}

impl Model for BoardState {
    ghost use Rattle.board_types.specs.declared.parts.BoardParts.{BoardParts};
    ghost use Rattle.board_core.specs.View.{board_parts_of, board_of, IsKept};
    ghost use Rattle.std.specs.Prelude.{ℕ};
    ghost use Rattle.std.proofs.Common.{ap, sym};

    ghost Value = { BoardParts };

    ghost view = { board_parts_of };

    ghost invariant = { IsKept };

    ghost inverse = { board_of };

    ghost inverse_ok = { λ b kept. ap (λ (t : ℕ). record b { time_ns = t }) (sym kept.time) };
}

impl BoardState {
    /// A board at power on. The setup's ranges are those of `Setup`'s fields.
    pub fn power_on(setup: &Setup) -> BoardState
        requires { IsSetup setup.now }
        ensures { result ≡ board_at_power_on setup.now }
    {
        BoardState {
            format: setup.format,
            cpus: setup.cpus,
            anchor: setup.anchor,
            host: setup.anchor.start,
            time_ns: setup.anchor.base_ns,
            guest_khz: setup.guest_khz,
            accesses: 0,
            greatest: 0,
            devices: Devices::power_on(setup),
            wall_number: 0,
            wall_version: 0,
            wall_sec: setup.wall_sec,
            wall_nsec: setup.wall_nsec,
            apics: apics_of_setup(setup),
            processors: [NO_PROCESSOR; 64],
            rises: [0; 6],
            hv: NO_HV,
        }
    }

    /// The format, 1 to `LAST_FORMAT`.
    pub fn format(&self) -> u8
        ensures { result ≡ self.now.format }
    {
        self.format
    }

    /// How many processors there are. A caller learns here what joins the parts of every board.
    pub fn cpus(&self) -> u8
        ensures value { result ≡ self.now.cpus }
        ensures joined { IsJoined self.now }
    {
        self.cpus
    }

    /// What joins the parts of every board, for a caller of which only the proof needs it: a call compiles to nothing.
    #[inline(always)]
    pub fn joined(&self)
        ensures { IsJoined self.now }
    {
        let _ = &self.cpus;
    }

    /// The rate, first count and first time of the host's counter.
    pub fn anchor(&self) -> Anchor
        ensures { result ≡ self.now.anchor }
    {
        self.anchor
    }

    /// The rate of the guest's TSC, in kHz.
    pub fn guest_khz(&self) -> u64
        ensures { result ≡ self.now.guest_khz }
    {
        self.guest_khz
    }

    /// The time in nanoseconds: that of the greatest count of all accesses.
    pub fn now(&self) -> u64
        ensures value { result ≡ now_of self.now }
        ensures range { result < RANGE_NS }
    {
        self.time_ns
    }

    /// How many accesses there were.
    pub fn accesses(&self) -> u64
        ensures { result ≡ self.now.accesses }
    {
        self.accesses
    }

    /// The greatest clock reading of all, in nanoseconds.
    pub fn greatest(&self) -> u64
        ensures { result ≡ self.now.greatest }
    {
        self.greatest
    }

    /// Sets the greatest clock reading, and nothing else.
    pub fn set_greatest(&mut self, greatest: u64)
        ensures { self.new ≡ with_greatest self.old greatest }
    {
        self.greatest = greatest;
    }

    /// The levels of the six lines.
    pub fn lines(&self) -> Lines
        ensures { result.levels ≡ levels (devices_in self.now) }
    {
        self.devices.lines()
    }

    /// The page of a processor.
    pub fn page(&self, cpu: u8) -> Page
        requires { cpu < self.now.cpus }
        ensures value { result ≡ page_in (processor_at self.now cpu) }
        ensures version { IsVersion result.version }
    {
        page_in(&self.processors[cpu as usize])
    }

    /// What the guest wrote to a processor's MSR_KVM_SYSTEM_TIME_NEW: its page's address, with bit 0 to enable the page.
    pub fn page_number(&self, cpu: u8) -> u64
        requires { cpu < self.now.cpus }
        ensures { result ≡ (processor_at self.now cpu).number }
    {
        self.processors[cpu as usize].number
    }

    /// What the guest wrote to HV_X64_MSR_REFERENCE_TSC: the reference page's address, with bit 0 to enable the page.
    pub fn hv_number(&self) -> u64
        ensures { result ≡ self.now.hv.number }
    {
        self.hv.number
    }

    /// The TSC of a processor.
    pub fn tsc(&self, cpu: u8) -> Tsc
        requires { cpu < self.now.cpus }
        ensures { result ≡ tsc_of (processor_at self.now cpu) }
    {
        tsc_of(&self.processors[cpu as usize])
    }

    /// The first nanosecond after the board's time, and below 2^59, in which a line changes if no access comes.
    #[inline(never)]
    pub fn next_edge(&self) -> Option<u64>
        ensures { result ≡ next_of (now_of self.now) (devices_in self.now) }
    {
        self.devices.next_edge(self.time_ns)
    }

    /// The first nanosecond after the board's time, and below 2^59, in which a timer of the HPET sends a message if no
    /// access comes. No line changes then, so `next_edge` doesn't tell it.
    #[inline(never)]
    pub fn next_message(&self) -> Option<u64>
        ensures { result ≡ next_message_of self.now }
    {
        self.devices.next_message(self.time_ns, RANGE_NS - 1)
    }
}

/// The timers of its local APICs, at power on.
fn apics_of_setup(setup: &Setup) -> LocalApics
    requires { IsSetup setup.now }
    ensures { result ≡ apics_at_power_on (apics_of setup.now.format setup.now.cpus) }
{
    LocalApics::power_on(apics_of(setup.format, setup.cpus))
}
