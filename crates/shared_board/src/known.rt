//! What contracts see of a pass.
use board_history::Entry;
use clock_table::Miss;
use std::collections::LinkedList;

/// A pass as contracts see it. No value of it is made.
pub struct PassKnown {
    /// Its number, from 0.
    pub number: u64,
    /// The board's history as far as the pass has seen it.
    pub seen: LinkedList<Entry>,
    /// Its reads without the lock that met an update, in order.
    pub misses: LinkedList<Miss>,
}
