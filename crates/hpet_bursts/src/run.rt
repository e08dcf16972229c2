//! The messages of all timers.
ghost use Rattle.std.specs.Prelude.{◌≡◌, ℕ, false, [], ◌-◌, ◌^◌, ◌<◌, ◌≤◌};
ghost use Rattle.hpet_registers.specs.Outputs.{is_message};
ghost use Rattle.hpet_bursts.specs.Messages.{message_times};
ghost use Rattle.hpet_bursts.specs.Bursts.{IsBurst, burst_in, bursts_of};

use crate::burst::burst_of;
use clk_units::pulses_between;
use hpet_comparator::Matches;
use hpet_registers::{HPET_HZ, Hpet};
use irq_edges::BurstList;

/// Puts into `bursts` the messages that the timers of `h` send after nanosecond `from` and up to
/// `to`, while nobody writes a register: a burst for each timer that sends any, in order of timers.
/// The list must be empty.
pub fn bursts_in(h: &Hpet, from: u64, to: u64, bursts: &mut BurstList)
    requires order { from ≤ to }
    requires range { to < 2 ^ 59 }
    requires fresh { bursts.old ≡ [] }
    ensures value { bursts.new ≡ bursts_of from (to - from) h.now }
    // Each burst gives the times of its timer's messages, and a timer without one sends none.
    ensures each { (k : ℕ) → k < 8 →
        let times = message_times k from (to - from) h.now in
        IsBurst k h.now times (burst_in k from (to - from) h.now) }
    // Where no timer is a message timer there are none.
    ensures none { ((k : ℕ) → k < 8 → is_message k h.now ≡ false) → bursts.new ≡ [] }
{
    let mut pulsed = *h;
    let mut matches = [Matches::NONE; 8];
    let _reach = pulsed.pulses(pulses_between(from, to, HPET_HZ), &mut matches);
    for k in 0..8u8 {
        if let Some(burst) = burst_of(h, k, matches[k as usize], from, to) {
            bursts.push(burst);
        }
    }
}
