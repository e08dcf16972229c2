//! A delivery, and a list of at most as many as there are edges.
use irq_edges::{EDGE_PLACES, ShortList};

/// Who gets an interrupt: a processor and a vector.
#[derive(Clone, Copy, Debug, Default, PartialEq, Eq)]
#[repr(C)]
pub struct Delivery {
    /// The number of the processor.
    pub cpu: u8,
    /// The interrupt's vector, 16 to 255.
    pub vector: u8,
}

/// A list of at most 24 deliveries.
pub type DeliveryList = ShortList<Delivery, EDGE_PLACES>;
