//! Hooks on the rises of lines.
ghost use Rattle.std.specs.Prelude.{◌≡◌};
ghost use Rattle.std.specs.List.{All, AllZip};
ghost use Rattle.irq_edges.specs.Lines.{IsOfLine};
ghost use Rattle.edge_hooks.specs.Hooks.{IsEdgeHook, IsDelivery, rises_among};

use crate::deliveries::{Delivery, DeliveryList};
use irq_edges::{Edge, EdgeList};

/// A hook that answers who gets the rise of a line.
#[derive(Drop)]
pub struct Hooks<F: Fn(Edge) -> Delivery> {
    /// How many processors there are.
    pub cpus: u8,
    /// The hook.
    pub hook: F,
}

impl<F: Fn(Edge) -> Delivery> Hooks<F> {
    /// A board of so many processors with this hook. On every edge of the six lines the hook may
    /// be called, gives a processor below `cpus` and a vector from 16 to 255, and always the same.
    pub fn new(cpus: u8, f: F) -> Hooks<F>
        requires { IsEdgeHook cpus (F.pre f) (F.post f) }
        ensures { result ≡ record { cpus = cpus; hook = f } }
    {
        Hooks { cpus, hook: f }
    }

    /// The hook's answers on the rises among these edges, in order, none left out. Each edge is of
    /// one of the six lines, and the hook is as `new` takes it.
    pub fn deliver(&self, edges: &EdgeList) -> DeliveryList
        requires hook { IsEdgeHook self.now.cpus (F.pre self.now.hook) (F.post self.now.hook) }
        requires lines { All IsOfLine edges.now }
        ensures answers { AllZip (F.post self.now.hook) (rises_among edges.now) result }
        ensures valid { All (IsDelivery self.now.cpus) result }
    {
        let mut deliveries = DeliveryList::new();
        for edge in edges.as_slice() {
            let is_rise = edge.up;
            if is_rise {
                deliveries.push(self.answer(*edge));
            }
        }
        deliveries
    }

    /// The hook's answer on an edge.
    fn answer(&self, edge: Edge) -> Delivery
        requires hook { IsEdgeHook self.now.cpus (F.pre self.now.hook) (F.post self.now.hook) }
        requires line { IsOfLine edge }
        ensures answer { F.post self.now.hook edge result }
        ensures valid { IsDelivery self.now.cpus result }
    {
        (self.hook)(edge)
    }
}
