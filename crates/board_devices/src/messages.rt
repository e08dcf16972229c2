//! The messages of the HPET's timers, in the place of ticks of their lines.
ghost use Rattle.std.specs.Prelude.{◌≡◌, ◌-◌, ◌^◌, ◌<◌, ◌≤◌, []};
ghost use Rattle.hpet_bursts.specs.Bursts.{bursts_of};
ghost use Rattle.hpet_bursts.specs.Next.{next_message};

use crate::devices::Devices;
use hpet_bursts::{bursts_in, next_message};
use irq_edges::BurstList;

impl Devices {
    /// Puts into `bursts` the messages that a run from nanosecond `from` to `to` sends, a burst for
    /// each timer that sends any, in order of timers: asked before the run. Address and data are
    /// those that the devices hold now, since no access comes within. The list must be empty.
    // Devices without a message timer pay one test.
    #[inline(always)]
    pub fn bursts(&self, from: u64, to: u64, bursts: &mut BurstList)
        requires order { from ≤ to }
        requires range { to < 2 ^ 59 }
        requires fresh { bursts.old ≡ [] }
        ensures { bursts.new ≡ bursts_of from (to - from) self.now.hpet }
    {
        if self.hpet.sends_messages() {
            bursts_in(&self.hpet, from, to, bursts);
        }
    }

    /// The first nanosecond after `from` and up to `to` in which a timer sends a message, if no
    /// access comes.
    pub fn next_message(&self, from: u64, to: u64) -> Option<u64>
        requires order { from ≤ to }
        requires range { to < 2 ^ 59 }
        ensures { result ≡ next_message from (to - from) self.now.hpet }
    {
        next_message(&self.hpet, from, to)
    }
}
