//! What a trace begins with.
use board_core::BoardState;
use trace_blocks::Deliveries;

/// What a trace begins with.
#[derive(Drop)]
pub struct Opening {
    pub state: BoardState,
    /// Where rises go.
    pub deliveries: Deliveries,
}
