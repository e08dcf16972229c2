//! The numbers on which the refusals of a board depend.
use host_counter::Anchor;

/// The numbers of a board on which its refusals depend.
#[derive(Clone, Copy)]
pub struct Meters {
    /// The format.
    pub format: u8,
    /// How many processors there are.
    pub cpus: u8,
    /// The rate, first count and first time of the host's counter.
    pub anchor: Anchor,
    /// The greatest count of all accesses.
    pub host: u64,
    /// How many accesses there were.
    pub accesses: u64,
    /// The version of the wall clock's words.
    pub wall_version: u32,
    /// The version of the reference page.
    pub hv_version: u32,
    /// The versions of the processors' pages.
    pub versions: [u32; 64],
}

/// Why a board isn't moved. The causes are tested in this order.
#[derive(Clone, Copy, Debug, PartialEq, Eq)]
pub enum MoveFault {
    /// The time after the gap, which is given in nanoseconds, is 2^59 or more.
    OutOfRange { ns: u128 },
    /// The page of a processor, the first such, has the last version, which is given; or the reference page has,
    /// whose `cpu` is the number of processors.
    VersionsSpent { cpu: u8, version: u64 },
}
