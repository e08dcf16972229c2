//! Reads of the 8254's ports, where the devices are at an earlier time.
ghost use Rattle.std.specs.Prelude.{◌≡◌, ◌-◌, ◌^◌, ◌<◌, ◌≤◌, IsTrue};
ghost use Rattle.pit_readback.specs.Ports.{is_pit_port, port_read, after_port_read};
ghost use Rattle.board_devices.specs.Run.{run};

use crate::devices::Devices;
use crate::pulse_counts::pulse_counts;

impl Devices {
    /// Reads a port of the 8254 at nanosecond `to`, where the devices are at `from`, if no access
    /// comes between. The devices stay at `from`: no pulse looks at what a read changes, so pulses
    /// may come after it.
    #[inline(always)]
    pub fn read_pit_later(&mut self, from: u64, to: u64, port: u8) -> u8
        requires port { IsTrue (is_pit_port port) }
        requires order { from ≤ to }
        requires range { to < 2 ^ 59 }
        ensures state { self.new ≡ record self.old { pit = after_port_read port self.old.pit } }
        ensures byte { result ≡ port_read to port (run from (to - from) self.old).state.pit }
    {
        self.pit.read_later(port, pulse_counts(from, to).pit, to)
    }
}
