//! Runs in which nothing happens, since all deadlines are far off.
ghost use Rattle.std.specs.Prelude.{◌≡◌, ℕ, true, ◌-◌, ◌<◌};
ghost use Rattle.local_apics.specs.Nanosecond.{tscs_of, tsc_by_time};
ghost use Rattle.local_apics.specs.Places.{timer_at};
ghost use Rattle.local_apics.specs.private.Span.{IsRun};
ghost use Rattle.local_apics.specs.private.Stretch.{IsStill};

use crate::LocalApics;
use crate::place::tsc_of;
use crate::span::{Span, TscClock, is_far_off};
use board_types::ProcessorParts;

impl LocalApics {
    /// Whether all timers that aren't idle wait for deadlines so far off that a run from nanosecond `from` to `to` changes
    /// nothing. Where one counts it answers false.
    #[inline(always)]
    pub(crate) fn is_still(
        &self,
        clock: &TscClock,
        processors: &[ProcessorParts; 64],
        from: u64,
        to: u64,
    ) -> bool
        requires { IsRun clock.now from to }
        ensures { result ≡ true → (k : ℕ) → k < 64
            → IsStill (tsc_by_time clock.now (tscs_of processors.now) k) from (to - from)
            (timer_at k self.now) }
    {
        if self.armed != self.waiting {
            return false;
        }
        let span = Span::new(clock, from, to);
        let mut rest = self.waiting;
        while rest != 0 {
            let cpu = rest.trailing_zeros() as u8;
            if !is_far_off(&self.timer(cpu), &span, tsc_of(processors, cpu)) {
                return false;
            }
            rest &= !(1 << cpu);
        }
        true
    }
}
