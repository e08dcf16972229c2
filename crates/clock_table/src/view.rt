//! What a seat knows, which proofs alone have: no value of these types is made.
use board_history::Entry;
use std::collections::LinkedList;

/// A read that met an update: the page's processor, and the two versions that it loaded.
pub struct Miss {
    pub page: u64,
    pub first: u64,
    pub second: u64,
}

/// A pass that has ended: its number, what it had seen, and its misses.
pub struct Ended {
    pub number: u64,
    pub seen: LinkedList<Entry>,
    pub misses: LinkedList<Miss>,
}

/// A read that goes on: the page's processor, the version that was loaded first, and the fields that were noted.
pub struct Read {
    pub cpu: u64,
    pub first: u64,
    pub noted: LinkedList<Option<u64>>,
}

/// The page that is open, and the fields that were put.
pub struct Hand {
    pub cpu: u64,
    pub put: LinkedList<Option<u64>>,
}

/// What two seats had seen that met: the one that stays, the one that went, and the one of them that had the pen.
pub struct Meet {
    pub here: LinkedList<Entry>,
    pub there: LinkedList<Entry>,
    pub penned: LinkedList<Entry>,
}

/// What a seat knows.
pub struct View {
    /// Whether the seat is in use: false of one that has joined another.
    pub live: bool,
    /// The history as far as the seat has seen it.
    pub seen: LinkedList<Entry>,
    /// The number of its pass.
    pub number: Option<u64>,
    /// Whether it holds the pen. Its holder alone enters accesses, opens pages and adds to the front word.
    pub pen: bool,
    /// The pen's holder: how many passes were made.
    pub made: u64,
    /// How many there may be.
    pub limit: Option<u64>,
    /// The page that it has open.
    pub hand: Option<Hand>,
    /// The read in which it is.
    pub read: Option<Read>,
    /// Its reads that met an update.
    pub misses: LinkedList<Miss>,
    /// Between a join and the load that ends it: what the two had seen.
    pub meet: Option<Meet>,
    /// The passes that have ended in it.
    pub ended: LinkedList<Ended>,
}
