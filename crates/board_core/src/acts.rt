//! What an access does to a board that has run to its time, and what it reads.
ghost use Rattle.std.specs.Prelude.{◌≡◌, ℕ, ◌+◌, ◌<◌, ◌≤◌, ◌++◌, true, false, length, IsTrue};
ghost use Rattle.irq_edges.specs.declared.edges.TheConstants.{EDGE_PLACES};
ghost use Rattle.board_types.specs.Legal.{is_source, is_legal};
ghost use Rattle.board_types.specs.declared.parts.TheConstants.{MOST_ACCESSES};
ghost use Rattle.board_devices.specs.Act.{reads_byte, value_of};
ghost use Rattle.board_core.specs.Time.{devices_in, now_of};
ghost use Rattle.board_core.specs.Tsc.{msr_read};
ghost use Rattle.board_core.specs.Wall.{wall_number_after, wall_words};
ghost use Rattle.board_meters.specs.Published.{wall_version_after};
ghost use Rattle.board_core.specs.Apics.{after_look};
ghost use Rattle.board_core.specs.Access.{
  read_of_port,
  write_of_port,
  act_of,
  value_at,
  own_edges,
  before_look,
  after_act,
  counts_of,
};
ghost use Rattle.board_core.specs.private.Calls.{IsTaken, HasTold};
ghost use Rattle.board_core.specs.private.Kinds.{touches, writes};
ghost use Rattle.board_core.specs.private.Room.{HasRoom};
ghost use Rattle.board_core.specs.private.Values.{told, value_with};

use crate::apics::act_on_apics;
use crate::board::BoardState;
use crate::processors::{publish_by, tsc_read};
use crate::rises::{count_at, count_rises};
use board_devices::Act;
use board_meters::{publishes_wall, wall_version_after};
use board_types::{
    Access, MSR_HV_REFERENCE_TSC, MSR_HV_TIME_REF_COUNT, MSR_KVM_WALL_CLOCK, MSR_TSC,
    MSR_TSC_ADJUST, TickSource, Value,
};
use irq_edges::EdgeList;
use lapic_timer::ApicRegister;
use tick_policy::Counts;

/// Nanoseconds in a unit of reference time.
const UNIT_NS: u64 = 100;

impl BoardState {
    /// The access itself, on a board that has run to its time, and then the look at the deadlines. Where that run looked
    /// at them at this very time, a look finds none, unless the access writes a register or moves a TSC.
    #[inline(always)]
    pub(crate) fn act(
        &mut self,
        cpu: u8,
        h: u64,
        a: Access,
        looked: bool,
        edges: &mut EdgeList,
    ) -> Value
        requires looked { looked ≡ true → after_look self.old ≡ self.old }
        requires taken { IsTaken self.old cpu h a }
        requires places { length edges.old + 12 ≤ EDGE_PLACES }
        ensures state { self.new ≡ after_act self.old cpu h a }
        ensures told { HasTold self.old cpu h a result edges.old edges.new }
    {
        let value = self.perform(cpu, h, a, edges);
        if looked && !writes(a) {
            return value;
        }
        self.look();
        value
    }

    /// What the access does, before the look. It goes to the devices, writes elsewhere, or only reads.
    #[inline(always)]
    fn perform(&mut self, cpu: u8, h: u64, a: Access, edges: &mut EdgeList) -> Value
        requires taken { IsTaken self.old cpu h a }
        requires places { length edges.old + 12 ≤ EDGE_PLACES }
        ensures state { self.new ≡ before_look self.old cpu h a }
        ensures room { HasRoom self.new }
        ensures told { HasTold self.old cpu h a result edges.old edges.new }
    {
        if touches(a) {
            let word = self.touch(&a, edges);
            return value_with(a, word, Value::Nothing);
        }
        if writes(a) {
            self.write_for(cpu, h, a);
            return Value::Nothing;
        }
        self.tell(cpu, h, a)
    }

    /// An access to the devices, which is the same for each processor and count. Answers what they give.
    #[inline(always)]
    fn touch(&mut self, a: &Access, edges: &mut EdgeList) -> u64
        requires touches { IsTrue (touches a.now) }
        requires legal { IsTrue (is_legal self.old.cpus self.old.format a.now) }
        requires accesses { self.old.accesses < MOST_ACCESSES }
        requires places { length edges.old + 12 ≤ EDGE_PLACES }
        ensures state { (cpu h : ℕ) → self.new ≡ before_look self.old cpu h a.now }
        ensures room { HasRoom self.new }
        ensures word { result ≡ value_of (now_of self.old) (act_of a.now) (devices_in self.old) }
        ensures byte { IsTrue (reads_byte (act_of a.now)) → result < 256 }
        ensures edges { edges.new ≡ edges.old ++ own_edges self.old a.now }
        ensures few { length edges.new ≤ length edges.old + 12 }
    {
        let before = edges.len();
        let word = self.devices.act(act_of(*a), self.time_ns, edges);
        self.accesses += 1;
        count_rises(&mut self.rises, self.format, edges, before);
        word
    }

    /// An access that writes to what isn't a device: it may publish, or act on the processor's local APIC.
    #[inline(never)]
    fn write_for(&mut self, cpu: u8, h: u64, a: Access)
        requires writes { IsTrue (writes a) }
        requires taken { IsTaken self.old cpu h a }
        ensures state { self.new ≡ before_look self.old cpu h a }
        ensures room { HasRoom self.new }
    {
        self.hv = self.hv_after(cpu, h, a);
        self.accesses += 1;
        self.wall_number = wall_number_after(a, self.wall_number);
        self.wall_version = wall_version_after(a, self.wall_version);
        publish_by(&mut self.processors, self.anchor, self.guest_khz, cpu, h, a);
        act_on_apics(&mut self.apics, cpu, a);
    }

    /// An access that only reads, and asks nothing of the devices.
    #[inline(always)]
    fn tell(&mut self, cpu: u8, h: u64, a: Access) -> Value
        requires untouched { touches a ≡ false }
        requires quiet { writes a ≡ false }
        requires cpu { cpu < self.old.cpus }
        requires legal { IsTrue (is_legal self.old.cpus self.old.format a) }
        requires accesses { self.old.accesses < MOST_ACCESSES }
        ensures state { self.new ≡ before_look self.old cpu h a }
        ensures room { HasRoom self.new }
        ensures value { result ≡ value_at self.old cpu h a }
    {
        self.accesses += 1;
        self.told(cpu, h, a)
    }

    /// What an access reads that asks nothing of the devices.
    #[inline(always)]
    fn told(&self, cpu: u8, h: u64, a: Access) -> Value
        requires cpu { cpu < self.now.cpus }
        requires legal { IsTrue (is_legal self.now.cpus self.now.format a) }
        ensures { result ≡ told self.now cpu h a }
    {
        match a {
            Access::MsrRead { msr } => Value::Word {
                width: 8,
                value: self.msr_read(cpu, h, msr),
            },
            Access::Wall => self.wall_words(),
            Access::CountsOf { from } => Value::Counts(self.counts_of(from)),
            Access::Next => Value::Next(self.next_edge()),
            Access::Rose { line } => Value::Word {
                width: 8,
                value: count_at(&self.rises, line),
            },
            _ => Value::Nothing,
        }
    }

    /// The counts of a source's tick line.
    fn counts_of(&self, from: TickSource) -> Counts
        requires { IsTrue (is_source self.now.cpus self.now.format from) }
        ensures { result ≡ counts_of self.now.ticks self.now.apic_ticks from }
    {
        match from {
            TickSource::Pit => self.devices.counts(0),
            TickSource::Rtc => self.devices.counts(1),
            TickSource::Hpet(timer) => self.devices.counts(timer + 2),
            TickSource::Apic(cpu) => self.apics.counts(cpu),
        }
    }

    /// What a processor reads of an MSR at count `h`.
    fn msr_read(&self, cpu: u8, h: u64, msr: u32) -> u64
        requires { cpu < self.now.cpus }
        ensures { result ≡ msr_read self.now cpu h msr }
    {
        let p = &self.processors[cpu as usize];
        if msr == MSR_TSC {
            return tsc_read(p, self.anchor, self.guest_khz, h);
        }
        if msr == MSR_TSC_ADJUST {
            return p.adjust;
        }
        if msr == MSR_KVM_WALL_CLOCK {
            return self.wall_number;
        }
        if msr == MSR_HV_TIME_REF_COUNT {
            return self.time_ns / UNIT_NS;
        }
        if msr == MSR_HV_REFERENCE_TSC {
            return self.hv.number;
        }
        match ApicRegister::of_msr(msr) {
            Some(register) => self.apics.read(cpu, register),
            None => p.number,
        }
    }

    /// The words of the wall clock.
    fn wall_words(&self) -> Value
        ensures { result ≡ wall_words self.now }
    {
        if self.wall_version == 0 {
            return Value::Wall {
                version: 0,
                sec: 0,
                nsec: 0,
            };
        }
        Value::Wall {
            version: self.wall_version,
            sec: self.wall_sec,
            nsec: self.wall_nsec,
        }
    }
}

/// Whether an access asks something of the devices.
#[inline(always)]
fn touches(a: Access) -> bool
    ensures { result ≡ touches a }
{
    match a {
        Access::PortIn { .. }
        | Access::PortOut { .. }
        | Access::HpetRead { .. }
        | Access::HpetWrite { .. }
        | Access::Ack { .. } => true,
        _ => false,
    }
}

/// Whether an access writes to what isn't a device.
#[inline(always)]
pub(crate) fn writes(a: Access) -> bool
    ensures { result ≡ writes a }
{
    match a {
        Access::MsrWrite { .. } | Access::Refresh { .. } | Access::Eoi => true,
        _ => false,
    }
}

/// What a read of a port asks of the devices.
#[inline(always)]
fn read_of_port(port: u8) -> Act
    ensures { result ≡ read_of_port port }
{
    match port {
        0x70 => Act::IndexRead,
        0x71 => Act::ClockRead,
        _ => Act::PitRead { port },
    }
}

/// What a write to a port asks of the devices.
fn write_of_port(port: u8, byte: u8) -> Act
    ensures { result ≡ write_of_port port byte }
{
    match port {
        0x70 => Act::IndexWrite { byte },
        0x71 => Act::ClockWrite { byte },
        _ => Act::PitWrite { port, byte },
    }
}

/// What an access asks of the devices.
#[inline(always)]
fn act_of(a: Access) -> Act
    ensures { result ≡ act_of a }
{
    match a {
        Access::PortIn { port } => read_of_port(port),
        Access::PortOut { port, byte } => write_of_port(port, byte),
        Access::HpetRead { offset, width } => Act::HpetRead { offset, width },
        Access::HpetWrite {
            offset,
            width,
            value,
        } => Act::HpetWrite {
            offset,
            width,
            value,
        },
        Access::Ack { line } => Act::Ack { line },
        _ => Act::Nothing,
    }
}

/// The value of an access: the word that the devices gave, or what the board itself reads.
#[inline(always)]
fn value_with(a: Access, word: u64, told: Value) -> Value
    requires { IsTrue (reads_byte (act_of a)) → word < 256 }
    ensures { result ≡ value_with a word told }
{
    match a {
        Access::PortIn { .. } => Value::Byte(word as u8),
        Access::HpetRead { width, .. } => Value::Word { width, value: word },
        _ => told,
    }
}

/// The number in MSR_KVM_WALL_CLOCK after an access.
fn wall_number_after(a: Access, number: u64) -> u64
    ensures { result ≡ wall_number_after a number }
{
    match a {
        Access::MsrWrite { msr, value } => if msr == MSR_KVM_WALL_CLOCK {
            value
        } else {
            number
        },
        _ => number,
    }
}
