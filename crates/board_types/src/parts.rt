//! All that a board holds, as a saved state keeps it.
use host_counter::Anchor;
use hpet_registers::HpetParts;
use lapic_timer::ApicParts;
use pit_readback::PitParts;
use rtc_registers::RtcParts;
use tick_policy::TickParts;

/// The last version that a page, or the wall clock's words, may have. Versions are even.
pub const LAST_VERSION: u32 = 4_294_967_294;

/// How many accesses a board takes.
pub const MOST_ACCESSES: u64 = 1 << 62;

/// What a board holds of one processor: its TSC, and its pvclock page.
#[derive(Clone, Copy, Debug, PartialEq, Eq)]
#[repr(C)]
pub struct ProcessorParts {
    /// The offset of its TSC from the scaled counter of the host.
    pub offset: u64,
    /// The register TSC_ADJUST.
    pub adjust: u64,
    /// The number written to MSR_KVM_SYSTEM_TIME; bit 0 enables the page.
    pub number: u64,
    /// The page: even, and 0 before the first publishing.
    pub version: u32,
    /// The TSC at which `system_time` was right.
    pub tsc_timestamp: u64,
    /// The time when the page was published, in nanoseconds.
    pub system_time: u64,
    /// The scale: multiplier and shift.
    pub mul: u32,
    pub shift: i8,
    /// `pvclock_page::TSC_STABLE`, with `GUEST_STOPPED` after a move.
    pub flags: u8,
}

/// What a board holds of the reference TSC page of Hyper-V, one page for all processors.
#[derive(Clone, Copy, Debug, PartialEq, Eq)]
#[repr(C)]
pub struct HvParts {
    /// The number written to MSR_HV_REFERENCE_TSC; bit 0 enables the page.
    pub number: u64,
    /// Even, and 0 before the first publishing. A guest sees the half of it.
    pub version: u32,
    /// The processor that wrote the number last.
    pub cpu: u8,
    /// Units of 100 ns for 2^64 ticks of the TSC; 0 where the page isn't enabled.
    pub scale: u64,
    /// What is added to the scaled TSC, in units of 100 ns modulo 2^64.
    pub offset: u64,
    /// The offset of that processor's TSC when the page was published.
    pub tsc_offset: u64,
}

/// All that a board holds.
#[derive(Clone, Copy)]
#[repr(C)]
pub struct BoardParts {
    /// The format, 1 to `LAST_FORMAT`.
    pub format: u8,
    /// How many processors there are.
    pub cpus: u8,
    /// The rate, first count and first time of the host's counter.
    pub anchor: Anchor,
    /// The greatest count of all accesses.
    pub host: u64,
    /// The rate of the guest's TSC in kHz.
    pub guest_khz: u64,
    /// How many accesses there were.
    pub accesses: u64,
    /// The greatest clock reading that was answered.
    pub greatest: u64,
    /// Nanoseconds from one catch-up point to the next.
    pub slew_ns: u64,
    /// The 8254.
    pub pit: PitParts,
    /// The MC146818.
    pub rtc: RtcParts,
    /// The HPET.
    pub hpet: HpetParts,
    /// The tick lines: of the 8254, of the MC146818, of each timer of the HPET.
    pub ticks: [TickParts; 10],
    /// The number written to MSR_KVM_WALL_CLOCK.
    pub wall_number: u64,
    /// The version of the wall clock's words: even, and 0 before the first publishing.
    pub wall_version: u32,
    /// The wall clock at power on.
    pub wall_sec: u32,
    pub wall_nsec: u32,
    /// The processors; places from `cpus` on hold 0.
    pub processors: [ProcessorParts; 64],
    /// How often each line went up, in order of line numbers; 0 in format 1.
    pub rises: [u64; 6],
    /// The local APICs' timers, by processor; places from `cpus` on hold 0, and before format 3 all do.
    pub apic: [ApicParts; 64],
    /// Their tick lines; places from `cpus` on are as at power on under `Discard`, and before format 3 all are.
    pub apic_ticks: [TickParts; 64],
    /// The reference page of Hyper-V; 0 before format 4.
    pub hv: HvParts,
}
