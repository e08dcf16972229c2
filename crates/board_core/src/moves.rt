//! A new anchor, and a later format.
ghost use Rattle.std.specs.Prelude.{◌≡◌, if◌then◌else◌, ◌+◌, ◌<◌, ◌≤◌, length};
ghost use Rattle.std.specs.List.{All};
ghost use Rattle.irq_edges.specs.Lines.{IsOfLine};
ghost use Rattle.clk_units.specs.Ranges.{IsKhz};
ghost use Rattle.clk_units.specs.declared.ranges.TheConstants.{RANGE_NS};
ghost use Rattle.board_types.specs.declared.setup.TheConstants.{LAST_FORMAT};
ghost use Rattle.board_types.specs.Setup.{has_messages};
ghost use Rattle.hpet_bursts.specs.Bursts.{bursts_of};
ghost use Rattle.board_devices.specs.Run.{run};
ghost use Rattle.board_devices.specs.Lines.{levels};
ghost use Rattle.board_devices.specs.Parts.{devices_upgraded};
ghost use Rattle.board_core.specs.Time.{devices_in, now_of};
ghost use Rattle.board_core.specs.Reanchor.{reanchored};
ghost use Rattle.board_core.specs.Upgrade.{has_eight_timers, gets_apics, apics_upgraded, upgraded_to};

use crate::apics::run_apics;
use crate::board::BoardState;
use crate::rises::count_rises_where;
use board_devices::Devices;
use board_types::{APIC_FORMAT, Ran, has_messages};
use host_counter::Anchor;
use irq_edges::{BurstList, EdgeList};
use local_apics::LocalApics;

impl BoardState {
    /// Runs `gap` nanoseconds by the old anchor, and then gives the new time to count `start` of a host's counter of
    /// `khz`, 100,000 to 10,000,000. TSC offsets, pages and the number of accesses stay. Answers the edges of the gap, at
    /// most six, and its messages.
    pub fn reanchor(&mut self, khz: u64, start: u64, gap: u64) -> Ran
        requires rate { IsKhz khz }
        requires range { now_of self.old + gap < RANGE_NS }
        ensures state { self.new ≡ reanchored khz start gap self.old }
        ensures edges { result.edges ≡ (run (now_of self.old) gap (devices_in self.old)).edges }
        ensures of_lines { All IsOfLine result.edges }
        ensures bursts { result.bursts ≡ bursts_of (now_of self.old) gap self.old.hpet }
        ensures few { length result.edges ≤ 6 }
    {
        let from = self.time_ns;
        run_apics(
            &mut self.apics,
            self.anchor,
            self.guest_khz,
            &self.processors,
            from,
            from + gap,
        );
        let mut edges = EdgeList::new();
        let mut bursts = BurstList::new();
        self.devices.bursts(from, from + gap, &mut bursts);
        let came = self.devices.run_to(from, from + gap, &mut edges);
        self.anchor = Anchor {
            khz,
            start,
            base_ns: from + gap,
        };
        self.host = start;
        self.time_ns = from + gap;
        count_rises_where(came, &mut self.rises, self.format, &edges, 0);
        Ran { edges, bursts }
    }

    /// The board in a later format, or the same. Format 2 brings five timers of the HPET and counts of rises, which are
    /// 0, format 3 the timers of local APICs, and format 5 the HPET's message registers; what it gets is as at power on.
    /// All else is kept, the levels of its lines too.
    #[tactic(auto, unfolding(crate::specs::Upgrade::upgraded_to))]
    pub fn upgraded(&self, to: u8) -> BoardState
        requires later { self.now.format ≤ to }
        requires built { to ≤ LAST_FORMAT }
        ensures state { result ≡ upgraded_to to self.now }
        ensures lines { levels (devices_in result) ≡ levels (devices_in self.now) }
    {
        let devices = devices_upgraded(&self.devices, to);
        let mut board = *self;
        board.devices = devices;
        board.apics = apics_upgraded(&self.apics, self.cpus, gets_apics(self.format, to));
        board.format = to;
        board
    }
}

/// Whether a board of the one format gets the timers of local APICs, which format 3 brings.
fn gets_apics(format: u8, to: u8) -> bool
    ensures { result ≡ gets_apics format to }
{
    format < APIC_FORMAT && APIC_FORMAT <= to
}

/// The timers of local APICs of so many processors: those at power on where `more` holds.
fn apics_upgraded(apics: &LocalApics, cpus: u8, more: bool) -> LocalApics
    requires { cpus ≤ 64 }
    ensures { result ≡ apics_upgraded cpus more apics.now }
{
    if more {
        LocalApics::power_on(cpus)
    } else {
        *apics
    }
}

/// The devices of a later format: what the HPET gets from it is as at power on.
#[tactic(auto, unfolding(board_devices::specs::Parts::devices_upgraded))]
fn devices_upgraded(devices: &Devices, to: u8) -> Devices
    ensures pit { result.pit ≡ devices.now.pit }
    ensures rtc { result.rtc ≡ devices.now.rtc }
    ensures hpet { result.hpet ≡
        (if has_eight_timers to then (devices_upgraded (has_messages to) devices.now).hpet
        else devices.now.hpet) }
    ensures ticks { result.ticks ≡
        (if has_eight_timers to then (devices_upgraded (has_messages to) devices.now).ticks
        else devices.now.ticks) }
    ensures slew { result.slew_ns ≡ devices.now.slew_ns }
    ensures levels { levels result ≡ levels devices.now }
{
    if 2 <= to {
        devices.upgraded(has_messages(to))
    } else {
        *devices
    }
}
