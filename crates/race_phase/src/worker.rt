//! What a worker has at hand.
use clock_table::Name;
use shared_board::SharedBoard;
use trace_blocks::Deliveries;

/// What a worker answers its records with, the same for all of them.
#[derive(Drop)]
pub(crate) struct Worker<'a, N: Name, R, G> {
    pub(crate) rt: &'a R,
    pub(crate) gate: &'a G,
    pub(crate) board: &'a SharedBoard<N>,
    pub(crate) deliveries: &'a Deliveries,
    /// How many processors the board has.
    pub(crate) cpus: u8,
    /// Its format.
    pub(crate) format: u8,
}
