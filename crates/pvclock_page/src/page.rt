//! Pages, and what a monitor answers where it reads one.

/// The flag that says that times taken on several processors never fall (`PVCLOCK_TSC_STABLE_BIT`).
pub const TSC_STABLE: u8 = 1;

/// The flag that says that the guest was stopped (`PVCLOCK_GUEST_STOPPED`).
pub const GUEST_STOPPED: u8 = 2;

/// The page of one processor.
#[derive(Clone, Copy, Debug, PartialEq, Eq)]
#[repr(C)]
pub struct Page {
    /// Goes up by 2 at each publishing, and is odd while the page is being written.
    pub version: u64,
    /// The TSC at which `system_time` was right.
    pub tsc_timestamp: u64,
    /// The time when the page was published, in nanoseconds.
    pub system_time: u64,
    /// The multiplier of the scale, in 2^-32ths of a nanosecond for each shifted tick.
    pub mul: u32,
    /// By how many bits ticks are shifted to the left before they are multiplied; to the right where
    /// this is negative.
    pub shift: i8,
    /// `TSC_STABLE`, `GUEST_STOPPED` or both.
    pub flags: u8,
    /// The offset of the TSC from the scaled counter of the host, with which the page was published. No
    /// guest sees it.
    pub offset: u64,
    /// Whether the guest has enabled the page. No guest sees it.
    pub enabled: bool,
}

/// What a read of a page answers.
#[derive(Clone, Copy, Debug, PartialEq, Eq)]
pub enum PageReply {
    /// The page isn't enabled.
    Off,
    /// The page, and the time that it gives in nanoseconds.
    On { page: Page, reading: u64 },
}

/// What a read of the clock answers.
#[derive(Clone, Copy, Debug, PartialEq, Eq)]
pub enum ClockReply {
    /// The page isn't enabled.
    Off,
    /// The time that the page gives, and the time that is answered: the greater of it and of all that
    /// were answered before, in nanoseconds.
    On { reading: u64, clock: u64 },
}
