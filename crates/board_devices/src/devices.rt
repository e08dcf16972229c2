//! The devices of a board and their tick lines.
ghost use Rattle.std.specs.Prelude.{◌≡◌, ◌<◌};
ghost use Rattle.board_types.specs.Setup.{IsSetup};
ghost use Rattle.board_devices.specs.Places.{line_at};
ghost use Rattle.board_devices.specs.Lines.{levels};
ghost use Rattle.board_devices.specs.Parts.{devices_at_power_on, lines_at_power_on};

use crate::lines::lines_of;
use crate::parts::DeviceParts;
use board_types::{Setup, has_messages, timers_of};
use hpet_registers::Hpet;
use irq_edges::Lines;
use pit_readback::Pit;
use rtc_registers::Rtc;
use std::marker::Model;
use tick_policy::{Counts, Policy, TickLine};

/// The devices that run with time: an 8254, an MC146818, an HPET, and the tick line of each source
/// of ticks.
#[derive(Clone, Copy)]
#[repr(C)]
pub struct Devices {
    pub(crate) pit: Pit,
    pub(crate) rtc: Rtc,
    pub(crate) hpet: Hpet,
    pub(crate) ticks: [TickLine; 10],
    pub(crate) slew_ns: u64,
}

impl Model for Devices {
    ghost use Rattle.board_devices.specs.declared.parts.DeviceParts.{DeviceParts};
    ghost use Rattle.board_devices.specs.View.{parts_of, devices_of};
    ghost use Rattle.board_devices.specs.Parts.{IsDevices};

    ghost Value = { DeviceParts };

    ghost view = { parts_of };

    ghost invariant = { λ d. IsDevices (parts_of d) };

    ghost inverse = { devices_of };
}

impl Devices {
    /// The devices of a setup at power on: its format says how many timers there are and whether
    /// they have message registers.
    pub fn power_on(setup: &Setup) -> Devices
        requires { IsSetup setup.now }
        ensures { result ≡ devices_at_power_on setup.now }
    {
        let timers = timers_of(setup.format);
        Devices {
            pit: Pit::power_on(),
            rtc: Rtc::power_on(setup.time),
            hpet: Hpet::power_on(timers, has_messages(setup.format)),
            ticks: lines_at_power_on(timers, setup.pit, setup.rtc, setup.hpet),
            slew_ns: setup.slew_ns,
        }
    }

    /// Nanoseconds between catch-up points.
    pub fn slew_ns(&self) -> u64
        ensures { result ≡ self.now.slew_ns }
    {
        self.slew_ns
    }

    /// The counts of the tick line at a place: 0 is that of the 8254, 1 that of the MC146818, k + 2
    /// that of timer k of the HPET.
    pub fn counts(&self, place: u8) -> Counts
        requires { place < 10 }
        ensures { result ≡ (line_at place self.now).counts }
    {
        self.ticks[place as usize].counts()
    }

    /// The policy of the tick line at a place.
    pub fn policy(&self, place: u8) -> Policy
        requires { place < 10 }
        ensures { result ≡ (line_at place self.now).policy }
    {
        self.ticks[place as usize].policy()
    }

    /// The levels of the lines.
    pub fn lines(&self) -> Lines
        ensures { result.levels ≡ levels self.now }
    {
        lines_of(&self.rtc, &self.hpet, &self.ticks)
    }
}

/// The tick lines at power on.
fn lines_at_power_on(timers: u8, pit: Policy, rtc: Policy, hpet: Policy) -> [TickLine; 10]
    ensures { result ≡ lines_at_power_on timers pit rtc hpet }
{
    let timer = TickLine::power_on(hpet);
    let later = TickLine::power_on(if timers == 8 { hpet } else { Policy::Discard });
    [
        TickLine::power_on(pit),
        TickLine::power_on(rtc),
        timer,
        timer,
        timer,
        later,
        later,
        later,
        later,
        later,
    ]
}
