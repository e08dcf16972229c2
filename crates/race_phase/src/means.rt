//! What a race runs with.
use std::alloc::Global;

/// What a race runs with: the handle that lets it start threads and wait, its memory, and the gate that is called around
/// each record.
#[derive(Drop)]
pub(crate) struct Means<'a, R, G> {
    pub(crate) rt: &'a R,
    pub(crate) alloc: Global,
    pub(crate) gate: &'a G,
}
