//! What accesses do to the devices.
ghost use Rattle.std.specs.Prelude.{
  ◌≡◌,
  ℕ,
  ◌+◌,
  ◌*◌,
  ◌<◌,
  ◌≤◌,
  ◌^◌,
  ◌&&◌,
  ◌||◌,
  ◌++◌,
  not,
  length,
  slice_index_or,
  IsTrue,
};
ghost use Rattle.irq_edges.specs.declared.edges.TheConstants.{EDGE_PLACES};
ghost use Rattle.std.specs.List.{All};
ghost use Rattle.irq_edges.specs.Lines.{line_numbers, level_of, change, IsOfLine};
ghost use Rattle.pit_readback.specs.Ports.{is_pit_port, port_read};
ghost use Rattle.hpet_registers.specs.Access.{is_access_width};
ghost use Rattle.rtc_registers.specs.Parts.{IsRtc};
ghost use Rattle.board_devices.specs.Rises.{one_if, lifts};
ghost use Rattle.board_devices.specs.Places.{line_at, no_line, ticked_at};
ghost use Rattle.board_devices.specs.Lines.{levels};
ghost use Rattle.board_devices.specs.declared.act.Act.TheVariants.{
  PitRead,
  PitWrite,
  IndexWrite,
  ClockWrite,
  HpetWrite,
  Ack,
};
ghost use Rattle.board_devices.specs.Act.{
  CanAct,
  HasActed,
  acted,
  first_part,
  value_of,
  act_edges,
  pit_ticked,
};
ghost use Rattle.board_devices.specs.private.Accesses.{HasReadClock, moves_lines};

use crate::acks::ack_lines;
use crate::clock::{ack_clock_line, again_where, clock_up, counts_rtc, set_clock_line, set_flag};
use crate::devices::Devices;
use crate::lines::lines_of;
use irq_edges::{Edge, EdgeList, changes};
use tick_policy::TickLine;

/// What an access asks of the devices.
#[derive(Clone, Copy)]
pub enum Act {
    /// A read of one of the ports 40h to 43h and 61h.
    PitRead { port: u8 },
    /// A write to one of them.
    PitWrite { port: u8, byte: u8 },
    /// A read of port 70h.
    IndexRead,
    /// A write to port 70h.
    IndexWrite { byte: u8 },
    /// A read of port 71h.
    ClockRead,
    /// A write to port 71h.
    ClockWrite { byte: u8 },
    /// A read of the HPET: an offset up to 3FFh, and a width of 1, 2, 4 or 8 bytes.
    HpetRead { offset: u16, width: u8 },
    /// A write to the HPET, of a value in its width.
    HpetWrite { offset: u16, width: u8, value: u64 },
    /// An acknowledgement of a line.
    Ack { line: u8 },
    /// Nothing.
    Nothing,
}

impl Devices {
    /// Does at nanosecond `at` what an access asks, in its two parts, and appends its edges: twelve
    /// places must be free. Answers what it reads. It lifts a line as often as its level grows, and
    /// once more at most.
    #[inline(always)]
    pub fn act(&mut self, a: Act, at: u64, edges: &mut EdgeList) -> u64
        requires { CanAct a self.old edges.old }
        ensures acted { HasActed a at self.old self.new result edges.old edges.new }
        ensures of_lines { All IsOfLine (act_edges at a self.old) }
        ensures lifts { (n : ℕ) → lifts n (act_edges at a self.old)
            + one_if (level_of line_numbers (levels self.old) n) ≤ 1
            + one_if (level_of line_numbers (levels self.new) n) }
    {
        let _clock = self.rtc.parts();
        self.act_parts(a, at, edges)
    }

    /// Does what an access asks, in its two parts.
    #[tactic(auto, using(crate::proofs::Masks::no_edges), unfolding(crate::specs::Act::acted, crate::specs::Act::first_part, crate::specs::Act::value_of))]
    #[inline(always)]
    fn act_parts(&mut self, a: Act, at: u64, edges: &mut EdgeList) -> u64
        requires { CanAct a self.old edges.old }
        ensures { HasActed a at self.old self.new result edges.old edges.new }
    {
        match a {
            Act::PitRead { port } => self.read_pit(port, at) as u64,
            Act::PitWrite { port, byte } => {
                self.write_pit(port, byte, at, edges);
                0
            }
            Act::IndexRead => 0xff,
            Act::IndexWrite { byte } => {
                self.write_index(byte);
                0
            }
            Act::ClockRead => self.read_clock(at, edges) as u64,
            Act::ClockWrite { byte } => {
                self.write_clock(byte, at, edges);
                0
            }
            Act::HpetRead { offset, width } => self.hpet.read(offset, width),
            Act::HpetWrite {
                offset,
                width,
                value,
            } => {
                self.write_hpet(offset, width, value, at, edges);
                0
            }
            Act::Ack { line } => {
                self.ack(line, at, edges);
                0
            }
            Act::Nothing => 0,
        }
    }
}

impl Devices {
    /// A read of a port of the 8254.
    #[tactic(auto, unfolding(crate::specs::Act::acted))]
    #[inline(always)]
    fn read_pit(&mut self, port: u8, at: u64) -> u8
        requires { IsTrue (is_pit_port port) }
        ensures state { self.new ≡ acted (PitRead port) self.old }
        ensures value { result ≡ port_read at port self.old.pit }
    {
        self.pit.read(port, at)
    }

    /// A write to a port of the 8254. A tick is due where OUT 0 rises.
    #[inline(never)]
    #[tactic(auto, unfolding(crate::specs::Act::acted, crate::specs::Act::first_part))]
    fn write_pit(&mut self, port: u8, byte: u8, at: u64, edges: &mut EdgeList)
        requires port { IsTrue (is_pit_port port) }
        requires places { length edges.old + 12 ≤ EDGE_PLACES }
        requires room { (line_at 0 self.old).counts.due + 1 < 2 ^ 63 }
        ensures state { self.new ≡ acted (PitWrite port byte) self.old }
        ensures edges { edges.new ≡ edges.old ++ act_edges at (PitWrite port byte) self.old }
        ensures few { length edges.new ≤ length edges.old + 12 }
        ensures due { (k : ℕ) → k < 10 → (line_at k self.new).counts.due
            ≤ (line_at k self.old).counts.due + 1 }
    {
        let legacy = self.hpet.legacy();
        let before = self.ticks[0].is_up();
        let counted = is_counted(self.pit.write(port, byte), legacy);
        tick_first(&mut self.ticks, counted);
        push_change(0, before, either(before, counted), at, edges);
    }
}

impl Devices {
    /// A write to port 70h.
    #[tactic(auto, unfolding(crate::specs::Act::acted))]
    fn write_index(&mut self, byte: u8)
        ensures { self.new ≡ acted (IndexWrite byte) self.old }
    {
        self.rtc.write_index(byte);
    }

    /// A read of port 71h. One of register C acknowledges the clock's tick line.
    #[inline(never)]
    #[tactic(auto, unfolding(crate::specs::Act::acted, crate::specs::Act::first_part))]
    fn read_clock(&mut self, at: u64, edges: &mut EdgeList) -> u8
        requires { length edges.old + 12 ≤ EDGE_PLACES }
        ensures { HasReadClock at self.old self.new result edges.old edges.new }
    {
        let _clock = self.rtc.parts();
        if self.rtc.index() == 0x0c {
            self.read_flags(at, edges)
        } else {
            self.rtc.read()
        }
    }

    /// A read of register C.
    #[tactic(auto, unfolding(crate::specs::Act::acted, crate::specs::Act::first_part))]
    fn read_flags(&mut self, at: u64, edges: &mut EdgeList) -> u8
        requires index { self.old.rtc.index ≡ 0x0c }
        requires valid { IsRtc self.old.rtc }
        requires places { length edges.old + 12 ≤ EDGE_PLACES }
        ensures { HasReadClock at self.old self.new result edges.old edges.new }
    {
        let legacy = self.hpet.legacy();
        let counts = counts_rtc(self.rtc.pie(), legacy);
        let before = where_plain(legacy, self.rtc.irqf());
        let byte = self.rtc.read();
        let middle = where_plain(legacy, self.rtc.irqf());
        let again = again_where(counts, &self.ticks);
        set_flag(&mut self.rtc, again);
        ack_clock_line(&mut self.ticks, counts);
        let after = where_plain(legacy, self.rtc.irqf());
        push_change(8, before, middle, at, edges);
        push_change(8, middle, after, at, edges);
        byte
    }

    /// A write to port 71h. The clock's tick line follows PF.
    #[inline(never)]
    #[tactic(auto, unfolding(crate::specs::Act::acted, crate::specs::Act::first_part))]
    fn write_clock(&mut self, byte: u8, at: u64, edges: &mut EdgeList)
        requires { length edges.old + 12 ≤ EDGE_PLACES }
        ensures state { self.new ≡ acted (ClockWrite byte) self.old }
        ensures edges { edges.new ≡ edges.old ++ act_edges at (ClockWrite byte) self.old }
        ensures few { length edges.new ≤ length edges.old + 12 }
        ensures due { (k : ℕ) → k < 10 → (line_at k self.new).counts.due
            ≡ (line_at k self.old).counts.due }
    {
        let legacy = self.hpet.legacy();
        let before = where_plain(legacy, self.rtc.irqf());
        self.rtc.write(byte);
        set_clock_line(&mut self.ticks, clock_up(&self.rtc, &self.hpet));
        let after = where_plain(legacy, self.rtc.irqf());
        push_change(8, before, after, at, edges);
    }
}

impl Devices {
    /// A write to the HPET. The clock's tick line follows PF and legacy replacement.
    #[inline(never)]
    #[tactic(auto, unfolding(crate::specs::Act::acted, crate::specs::Act::first_part))]
    fn write_hpet(&mut self, offset: u16, width: u8, v: u64, at: u64, edges: &mut EdgeList)
        requires offset { offset ≤ 0x3ff }
        requires width { IsTrue (is_access_width width) }
        requires fits { v < 2 ^ (8 * width) }
        requires places { length edges.old + 12 ≤ EDGE_PLACES }
        ensures state { self.new ≡ acted (HpetWrite offset width v) self.old }
        ensures edges { edges.new ≡ edges.old ++ act_edges at (HpetWrite offset width v) self.old }
        ensures few { length edges.new ≤ length edges.old + 12 }
        ensures due { (k : ℕ) → k < 10 → (line_at k self.new).counts.due
            ≡ (line_at k self.old).counts.due }
    {
        if !moves_lines(offset) {
            self.hpet.write(offset, width, v);
            return;
        }
        let before = lines_of(&self.rtc, &self.hpet, &self.ticks);
        self.hpet.write(offset, width, v);
        set_clock_line(&mut self.ticks, clock_up(&self.rtc, &self.hpet));
        let after = lines_of(&self.rtc, &self.hpet, &self.ticks);
        changes(before, after, at, edges);
    }

    /// An acknowledgement of a line, in its two parts.
    #[inline(never)]
    #[tactic(auto, unfolding(crate::specs::Act::acted, crate::specs::Act::first_part))]
    fn ack(&mut self, line: u8, at: u64, edges: &mut EdgeList)
        requires { length edges.old + 12 ≤ EDGE_PLACES }
        ensures state { self.new ≡ acted (Ack line) self.old }
        ensures edges { edges.new ≡ edges.old ++ act_edges at (Ack line) self.old }
        ensures few { length edges.new ≤ length edges.old + 12 }
        ensures due { (k : ℕ) → k < 10 → (line_at k self.new).counts.due
            ≡ (line_at k self.old).counts.due }
    {
        let levels = ack_lines(&mut self.ticks, &self.hpet, line);
        push_change(line, levels.before, levels.between, at, edges);
        push_change(line, levels.between, levels.after, at, edges);
    }
}

/// Whether a write to the HPET at this offset may move a line: to its configuration, its status or
/// the configuration of a timer.
fn moves_lines(offset: u16) -> bool
    ensures { result ≡ moves_lines offset }
{
    let place = offset - offset % 8;
    place == 0x10 || (place == 0x20 || (place >= 0x100 && place % 0x20 == 0))
}

/// Whether a rise of OUT 0 is counted.
fn is_counted(rose: bool, legacy: bool) -> bool
    ensures { result ≡ (rose && not legacy) }
{
    rose && !legacy
}

/// Whether one of two holds.
pub(crate) fn either(a: bool, b: bool) -> bool
    ensures { result ≡ (a || b) }
{
    a || b
}

/// A level of line 8 that the clock drives: legacy replacement hides it.
fn where_plain(legacy: bool, level: bool) -> bool
    ensures { result ≡ (not legacy && level) }
{
    !legacy && level
}

/// A tick is due at the first place, where `b` holds.
#[tactic(auto, using(crate::proofs::Masks::ticked_first, crate::proofs::Masks::ticked_none))]
fn tick_first(ticks: &mut [TickLine; 10], b: bool)
    requires { (slice_index_or ticks.old 0 no_line).counts.due + 1 < 2 ^ 63 }
    ensures { ticks.new ≡ ticked_at (pit_ticked b) ticks.old }
{
    if b {
        let mut line = ticks[0];
        line.due(1);
        ticks[0] = line;
    }
}

/// Appends the edge of a line between two levels, where they differ.
fn push_change(line: u8, before: bool, after: bool, at: u64, edges: &mut EdgeList)
    requires { length edges.old < EDGE_PLACES }
    ensures appended { edges.new ≡ edges.old ++ change at line before after }
    ensures few { length edges.new ≤ length edges.old + 1 }
{
    if before != after {
        edges.push(Edge {
            at,
            line,
            up: after,
        });
    }
}
