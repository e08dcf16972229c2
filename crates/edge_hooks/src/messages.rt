//! Hooks on the messages of timers.
ghost use Rattle.std.specs.Prelude.{◌≡◌};
ghost use Rattle.std.specs.List.{All, AllZip};
ghost use Rattle.edge_hooks.specs.Hooks.{IsMessageHook, IsDelivery};
ghost use Rattle.edge_hooks.specs.Messages.{IsSent};

use crate::deliveries::Delivery;
use crate::sent::{Sent, SentList};
use irq_edges::{Burst, BurstList};

/// A message that a timer sends in place of an interrupt on a line (HPET specification 1.0a, "Timer
/// N FSB Interrupt Route Register").
#[derive(Clone, Copy, Debug, Default, PartialEq, Eq)]
#[repr(C)]
pub struct Message {
    /// The address that is written.
    pub address: u32,
    /// What is written there.
    pub data: u32,
}

/// A hook that answers who gets a message.
#[derive(Drop)]
pub struct MessageHooks<G: Fn(Message) -> Delivery> {
    /// How many processors there are.
    pub cpus: u8,
    /// The hook.
    pub hook: G,
}

impl<G: Fn(Message) -> Delivery> MessageHooks<G> {
    /// A board of so many processors with this hook. On every message the hook may be called, gives
    /// a processor below `cpus` and a vector from 16 to 255, and always the same.
    pub fn new(cpus: u8, g: G) -> MessageHooks<G>
        requires { IsMessageHook cpus (G.pre g) (G.post g) }
        ensures { result ≡ record { cpus = cpus; hook = g } }
    {
        MessageHooks { cpus, hook: g }
    }

    /// Each of these bursts, in order, none left out, with the hook's answer on its message. The
    /// hook is as `new` takes it.
    pub fn send(&self, bursts: &BurstList) -> SentList
        requires { IsMessageHook self.now.cpus (G.pre self.now.hook) (G.post self.now.hook) }
        ensures answers { AllZip (IsSent (G.post self.now.hook)) bursts.now result }
        ensures valid { All (λ sent. IsDelivery self.now.cpus sent.to) result }
    {
        let mut sent = SentList::new();
        for burst in bursts.as_slice() {
            sent.push(self.answer(*burst));
        }
        sent
    }

    /// A burst with the hook's answer on its message.
    fn answer(&self, burst: Burst) -> Sent
        requires { IsMessageHook self.now.cpus (G.pre self.now.hook) (G.post self.now.hook) }
        ensures answer { IsSent (G.post self.now.hook) burst result }
        ensures valid { IsDelivery self.now.cpus result.to }
    {
        let Burst { address, data, .. } = burst;
        let to = (self.hook)(Message { address, data });
        Sent { burst, to }
    }
}
