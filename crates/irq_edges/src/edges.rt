//! An edge, and a list of at most 24 of them.
use crate::short_list::ShortList;

/// How many edges an `EdgeList` has places for.
pub const EDGE_PLACES: usize = 24;

/// A change of the level of a line.
#[derive(Clone, Copy, Debug, Default, PartialEq, Eq)]
#[repr(C)]
pub struct Edge {
    /// The nanosecond of the change.
    pub at: u64,
    /// The number of the line.
    pub line: u8,
    /// Whether the line went up; else it went down.
    pub up: bool,
}

/// A list of at most 24 edges.
pub type EdgeList = ShortList<Edge, EDGE_PLACES>;
