//! What a move gives.
use board_core::BoardState;
use irq_edges::{BurstList, EdgeList};

/// A board on its new host.
#[derive(Drop)]
pub struct Moved {
    /// The board.
    pub state: BoardState,
    /// The changes of its lines in the gap, at most six.
    pub edges: EdgeList,
    /// The bursts of messages of its HPET in the gap, at most eight.
    pub bursts: BurstList,
}
