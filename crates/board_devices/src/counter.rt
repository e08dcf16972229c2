//! The HPET's main counter, by which a guest tells time.
ghost use Rattle.std.specs.Prelude.{◌≡◌, ◌-◌, ◌^◌, ◌<◌, ◌≤◌};
ghost use Rattle.board_devices.specs.Run.{run};

use crate::devices::Devices;
use crate::pulse_counts::hpet_pulses;

impl Devices {
    /// The HPET's main counter at nanosecond `to`, where the devices are at `from`, if no access
    /// comes between.
    #[inline(always)]
    pub fn main_counter(&self, from: u64, to: u64) -> u64
        requires order { from ≤ to }
        requires range { to < 2 ^ 59 }
        ensures { result ≡ (run from (to - from) self.now).state.hpet.counter }
    {
        let hpet = self.hpet.parts();
        if hpet.config % 2 == 0 {
            return hpet.counter;
        }
        hpet.counter.wrapping_add(hpet_pulses(from, to))
    }
}
