//! What a board answers, and why it refuses.
ghost use Rattle.std.specs.Prelude.{◌≡◌};
ghost use Rattle.board_types.specs.Reply.{empty_reply, IsFresh};

use host_counter::TimeFault;
use irq_edges::{BurstList, EdgeList};
use tick_policy::Counts;

/// What an access gives.
#[derive(Clone, Copy, Debug, PartialEq, Eq)]
pub enum Value {
    /// No value.
    Nothing,
    /// The byte of a port.
    Byte(u8),
    /// A value of this many bytes: of the HPET, of an MSR (8 bytes), or a count of rises (8 bytes).
    Word { width: u8, value: u64 },
    /// The ticks of a source.
    Counts(Counts),
    /// The wall clock's words: version, seconds, nanoseconds.
    Wall { version: u32, sec: u32, nsec: u32 },
    /// The nanosecond at which a line changes next, if one does below 2^59.
    Next(Option<u64>),
}

/// What an access that isn't refused is answered.
#[derive(Debug, Drop, PartialEq, Eq)]
pub struct Reply {
    /// The number of the access, from 1 on.
    pub number: u64,
    /// The value that it gives.
    pub value: Value,
    /// The changes of lines: those up to its time, then its own.
    pub edges: EdgeList,
    /// The messages of the HPET's timers up to its time; from format 5 on.
    pub bursts: BurstList,
}

impl Reply {
    /// A reply before its access, for a caller that keeps one.
    pub fn empty() -> Reply
        ensures value { result ≡ empty_reply }
        ensures fresh { IsFresh result }
    {
        Reply {
            number: 0,
            value: Value::Nothing,
            edges: EdgeList::new(),
            bursts: BurstList::new(),
        }
    }

    /// Takes the edges and the messages out, for another access.
    #[inline(always)]
    pub fn clear(&mut self)
        ensures number { self.new.number ≡ self.old.number }
        ensures value { self.new.value ≡ self.old.value }
        ensures fresh { IsFresh self.new }
    {
        self.edges.clear();
        self.bursts.clear();
    }
}

/// What a run of the board brought.
#[derive(Debug, Drop, PartialEq, Eq)]
pub struct Ran {
    /// The changes of lines.
    pub edges: EdgeList,
    /// The messages of the HPET's timers; from format 5 on.
    pub bursts: BurstList,
}

/// Why an access is refused. The causes are tested in this order, and a board that refuses stays as it is.
#[derive(Clone, Copy, Debug, PartialEq, Eq)]
pub enum Refusal {
    /// The count of the host's counter has no time.
    NoTime(TimeFault),
    /// The access would publish a page, or the wall clock's words, whose version is the last one, which is given.
    VersionsSpent { version: u64 },
    /// There were 2^62 accesses, which is the number that is given.
    Spent { number: u64 },
}
