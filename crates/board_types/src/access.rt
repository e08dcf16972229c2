//! The accesses that a board takes.
ghost use Rattle.std.specs.Prelude.{◌≡◌, ◌*◌, ◌^◌, nat_lt, IsTrue};
ghost use Rattle.hpet_registers.specs.Access.{is_access_width};
ghost use Rattle.irq_edges.specs.Lines.{is_line};
ghost use Rattle.board_types.specs.Legal.{
  is_port,
  is_apic_msr,
  is_hv_msr,
  is_msr,
  is_hpet_place,
  is_source,
  is_legal,
};

use crate::setup::{APIC_FORMAT, HV_FORMAT, timers_of};
use irq_edges::is_line;
use pit_readback::is_pit_port;

/// IA32_TIME_STAMP_COUNTER: the processor's TSC (Intel SDM, volume 4).
pub const MSR_TSC: u32 = 0x10;

/// IA32_TSC_ADJUST: by how much the TSC was moved (Intel SDM, volume 4).
pub const MSR_TSC_ADJUST: u32 = 0x3b;

/// MSR_KVM_WALL_CLOCK_NEW: where the guest wants the wall clock (Linux, "KVM-specific MSRs").
pub const MSR_KVM_WALL_CLOCK: u32 = 0x4b56_4d00;

/// MSR_KVM_SYSTEM_TIME_NEW: where the guest wants its pvclock page; bit 0 enables it (Linux, "KVM-specific MSRs").
pub const MSR_KVM_SYSTEM_TIME: u32 = 0x4b56_4d01;

/// The LVT timer register of the processor's local APIC (Intel SDM, volume 3, "x2APIC Register Address Space").
pub const MSR_APIC_LVT: u32 = 0x832;

/// The initial count of that timer.
pub const MSR_APIC_INITIAL: u32 = 0x838;

/// Its current count.
pub const MSR_APIC_CURRENT: u32 = 0x839;

/// Its divide configuration.
pub const MSR_APIC_DIVIDE: u32 = 0x83e;

/// IA32_TSC_DEADLINE: the TSC at which that timer fires in deadline mode (Intel SDM, volume 4).
pub const MSR_TSC_DEADLINE: u32 = 0x6e0;

/// HV_X64_MSR_TIME_REF_COUNT: the partition's reference time, in units of 100 ns (TLFS, "Reference Counter").
pub const MSR_HV_TIME_REF_COUNT: u32 = 0x4000_0020;

/// HV_X64_MSR_REFERENCE_TSC: where the guest wants the reference TSC page; bit 0 enables it (TLFS, "Reference TSC Page
/// MSR").
pub const MSR_HV_REFERENCE_TSC: u32 = 0x4000_0021;

/// A source of ticks, whose lost and late ones are counted.
#[derive(Clone, Copy, Debug, PartialEq, Eq)]
pub enum TickSource {
    /// Counter 0 of the 8254.
    Pit,
    /// The periodic events of the MC146818.
    Rtc,
    /// The matches of a timer of the HPET, by its number.
    Hpet(u8),
    /// The fires of a processor's local APIC timer, by the processor's number; from format 3 on.
    Apic(u8),
}

/// What a processor, or its monitor, may ask of a board.
#[derive(Clone, Copy, Debug, PartialEq, Eq)]
pub enum Access {
    /// A read of one of the ports 40h to 43h, 61h, 70h and 71h.
    PortIn { port: u8 },
    /// A write to one of these ports.
    PortOut { port: u8, byte: u8 },
    /// A read of the HPET: 1, 2, 4 or 8 bytes at an offset up to 3FFh.
    HpetRead { offset: u16, width: u8 },
    /// A write to the HPET of a value that fits its width.
    HpetWrite { offset: u16, width: u8, value: u64 },
    /// A read of one of the MSRs above, by the processor that makes the access. Those of the local APIC's timer are
    /// there from format 3 on, those of Hyper-V from format 4 on.
    MsrRead { msr: u32 },
    /// A write to one of them.
    MsrWrite { msr: u32, value: u64 },
    /// An acknowledgement of one of the lines 0, 8, 20, 21, 22 and 23.
    Ack { line: u8 },
    /// Nothing but the time that has gone by.
    Step,
    /// The pvclock page of this processor is published.
    Refresh { page: u8 },
    /// A read of the wall clock's words.
    Wall,
    /// How many ticks of a source there were, and what became of them.
    CountsOf { from: TickSource },
    /// When a line changes next, if no access comes.
    Next,
    /// How often a line went up; from format 2 on.
    Rose { line: u8 },
    /// The end of an interrupt of the local APIC's timer of the processor that makes the access; from format 3 on.
    Eoi,
}

impl Access {
    /// Whether a board of this many processors and this format takes the access: whether its port, register,
    /// width, line, source or page is there, and a written value fits its width.
    #[inline(always)]
    pub fn legal(&self, cpus: u8, format: u8) -> bool
        ensures { result ≡ is_legal cpus format self.now }
    {
        match *self {
            Access::PortIn { port } | Access::PortOut { port, .. } => is_port(port),
            Access::HpetRead { offset, width } => is_hpet_place(offset, width),
            Access::HpetWrite {
                offset,
                width,
                value,
            } => is_hpet_place(offset, width) && fits(value, width),
            Access::MsrRead { msr } | Access::MsrWrite { msr, .. } => is_msr(msr, format),
            Access::Ack { line } => is_line(line),
            Access::Step | Access::Wall | Access::Next => true,
            Access::Refresh { page } => page < cpus,
            Access::CountsOf { from } => is_source(from, cpus, format),
            Access::Rose { line } => 2 <= format && is_line(line),
            Access::Eoi => APIC_FORMAT <= format,
        }
    }
}

/// Whether a port is one of the 8254 (40h to 43h, 61h) or of the MC146818 (70h, 71h).
#[inline(always)]
pub fn is_port(port: u8) -> bool
    ensures { result ≡ is_port port }
{
    is_pit_port(port) || port == 0x70 || port == 0x71
}

/// Whether an MSR is one that a format has.
fn is_msr(msr: u32, format: u8) -> bool
    ensures { result ≡ is_msr format msr }
{
    msr == MSR_TSC
        || msr == MSR_TSC_ADJUST
        || msr == MSR_KVM_WALL_CLOCK
        || msr == MSR_KVM_SYSTEM_TIME
        || (is_apic_msr(msr) && APIC_FORMAT <= format)
        || (is_hv_msr(msr) && HV_FORMAT <= format)
}

/// Whether an MSR is one of the local APIC's timer.
fn is_apic_msr(msr: u32) -> bool
    ensures { result ≡ is_apic_msr msr }
{
    msr == MSR_APIC_LVT
        || msr == MSR_APIC_INITIAL
        || msr == MSR_APIC_CURRENT
        || msr == MSR_APIC_DIVIDE
        || msr == MSR_TSC_DEADLINE
}

/// Whether an MSR is one of Hyper-V's reference time.
fn is_hv_msr(msr: u32) -> bool
    ensures { result ≡ is_hv_msr msr }
{
    msr == MSR_HV_TIME_REF_COUNT || msr == MSR_HV_REFERENCE_TSC
}

/// Whether an access to the HPET lies in its block of 400h bytes, with a width that a processor has: 1, 2, 4 or 8 bytes.
#[inline(always)]
pub fn is_hpet_place(offset: u16, width: u8) -> bool
    ensures { result ≡ is_hpet_place offset width }
{
    offset <= 0x3ff && matches!(width, 1 | 2 | 4 | 8)
}

/// Whether a value fits a width of an access, in bytes.
fn fits(value: u64, width: u8) -> bool
    requires { IsTrue (is_access_width width) }
    ensures { result ≡ nat_lt value (2 ^ (8 * width)) }
{
    match width {
        1 => value < 0x100,
        2 => value < 0x1_0000,
        4 => value < 0x1_0000_0000,
        _ => true,
    }
}

/// Whether a board of this many processors and this format has a source of ticks.
fn is_source(from: TickSource, cpus: u8, format: u8) -> bool
    ensures { result ≡ is_source cpus format from }
{
    match from {
        TickSource::Pit | TickSource::Rtc => true,
        TickSource::Hpet(timer) => timer < timers_of(format),
        TickSource::Apic(cpu) => APIC_FORMAT <= format && cpu < cpus,
    }
}
