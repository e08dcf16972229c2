//! Why a page wasn't read.
use host_counter::TimeFault;

/// Why a read without the lock answers no page. The causes are tested in this order.
#[derive(Clone, Copy, Debug, PartialEq, Eq)]
pub enum PageFault {
    /// The count of the host's counter has no time.
    NoTime(TimeFault),
    /// The page was being written: an odd version was loaded first, which is given twice, or the two versions that
    /// were loaded differ.
    Again { first: u64, second: u64 },
}

/// Why a read under the lock answers no page. The causes are tested in this order.
#[derive(Clone, Copy, Debug, PartialEq, Eq)]
pub enum LockedFault {
    /// The count of the host's counter has no time.
    NoTime(TimeFault),
    /// The front word, which is given, is 2^63 or more: so many reads of pages were under the lock.
    Spent { front: u64 },
}
