//! A tick line over any list of events, and the laws of its counts.
ghost use Rattle.std.specs.Prelude.{◌≡◌, ◌+◌, ◌^◌, ◌<◌};
ghost use Rattle.tick_policy.specs.History.{after_event, after_events, tick_of, ticks_of};

use crate::{Counts, Policy, TickLine};

/// What happens to a tick line.
#[derive(Clone, Copy, Debug, PartialEq, Eq)]
pub enum Event {
    /// A tick is due.
    Tick,
    /// The guest acknowledges the line.
    Acknowledgement,
    /// A catch-up point.
    CatchUpPoint,
}

impl TickLine {
    /// All these events, one after the other; answers the counts that they leave. However they
    /// fall, each tick is shown, waits or is lost: under `Discard` none waits, and under `Delay`
    /// and `Slew` none is lost.
    pub fn run_events(&mut self, events: &[Event]) -> Counts
        requires { self.old.counts.due + ticks_of events.now < 2 ^ 63 }
        ensures state { self.new ≡ after_events events.now self.old }
        ensures counts { result ≡ self.new.counts }
        ensures due { result.due ≡ self.old.counts.due + ticks_of events.now }
        ensures discard { self.old.policy ≡ Policy.Discard →
            result.due ≡ result.rises + result.lost }
        ensures delay { self.old.policy ≡ Policy.Delay → result.due ≡ result.rises + result.queue }
        ensures slew { self.old.policy ≡ Policy.Slew → result.due ≡ result.rises + result.queue }
    {
        for event in events {
            self.run_event(*event);
        }
        self.counts()
    }

    /// One event.
    fn run_event(&mut self, event: Event)
        requires { self.old.counts.due + tick_of event < 2 ^ 63 }
        ensures { self.new ≡ after_event event self.old }
    {
        match event {
            Event::Tick => self.due(1),
            Event::Acknowledgement => {
                self.ack();
            }
            Event::CatchUpPoint => {
                self.catch_up();
            }
        }
    }
}
