//! All fields, and the conditions on them.
ghost use Rattle.std.specs.Prelude.{◌≡◌, ◌<◌, ◌↔◌, IsTrue, slice_set};
ghost use Rattle.local_apics.specs.Places.{timer_at, line_at, no_timer, no_line};

use lapic_timer::ApicParts;
use tick_policy::{Counts, Policy, TickParts};

/// All fields of the timers and of their tick lines.
#[derive(Clone, Copy, Debug, PartialEq, Eq)]
#[repr(C)]
pub struct ApicsParts {
    /// The timers, by processor; the places of processors that aren't there hold 0.
    pub timers: [ApicParts; 64],
    /// Their tick lines, likewise: the policy that holds 0 is Discard.
    pub lines: [TickParts; 64],
}

/// No processor's fields.
pub(crate) const NO_PARTS: ApicsParts = ApicsParts {
    timers: [ApicParts {
        lvt: 0,
        divide: 0,
        initial: 0,
        current: 0,
        phase: 0,
        deadline: 0,
    }; 64],
    lines: [TickParts {
        policy: Policy::Discard,
        up: false,
        counts: Counts {
            due: 0,
            rises: 0,
            queue: 0,
            lost: 0,
        },
    }; 64],
};

impl ApicsParts {
    /// The fields of a processor's timer.
    pub(crate) fn timer(&self, cpu: u8) -> ApicParts
        requires { cpu < 64 }
        ensures { result ≡ timer_at cpu self.now }
    {
        self.timers[cpu as usize]
    }

    /// The fields of its tick line.
    pub(crate) fn line(&self, cpu: u8) -> TickParts
        requires { cpu < 64 }
        ensures { result ≡ line_at cpu self.now }
    {
        self.lines[cpu as usize]
    }

    /// Puts the fields of a processor there.
    pub(crate) fn put(&mut self, cpu: u8, timer: ApicParts, line: TickParts)
        requires { cpu < 64 }
        ensures { self.new ≡ record {
          timers = slice_set self.old.timers cpu timer;
          lines = slice_set self.old.lines cpu line;
        } }
    {
        self.timers[cpu as usize] = timer;
        self.lines[cpu as usize] = line;
    }
}

/// Whether all fields of a timer hold 0.
pub(crate) fn is_no_timer(p: &ApicParts) -> bool
    ensures { IsTrue result ↔ (p.now ≡ no_timer) }
{
    p.lvt == 0
        && p.divide == 0
        && p.initial == 0
        && p.current == 0
        && p.phase == 0
        && p.deadline == 0
}

/// Whether all fields of a tick line hold 0.
pub(crate) fn is_no_line(l: &TickParts) -> bool
    ensures { IsTrue result ↔ (l.now ≡ no_line) }
{
    l.policy.byte() == 0
        && !l.up
        && l.counts.due == 0
        && l.counts.rises == 0
        && l.counts.queue == 0
        && l.counts.lost == 0
}
