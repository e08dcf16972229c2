//! The bytes of a board.
ghost use Rattle.std.specs.Prelude.{◌≡◌, ◌≤◌, ◌++◌, None, OnOk, IfOk, length};
ghost use Rattle.board_types.specs.Setup.{timers_of};
ghost use Rattle.board_core.specs.Time.{devices_in};
ghost use Rattle.byte_table.specs.Fold.{write};
ghost use Rattle.save_state.specs.Fields.{
  head,
  host,
  guest,
  policies,
  counters,
  clock,
  registers,
  timers,
  lines,
  counts_of,
  rises,
  wall,
  processors,
  front,
  devices,
  back,
};
ghost use Rattle.save_state.specs.private.Devices.{board_with};
ghost use Rattle.save_state.specs.private.Fits.{
  HostFits,
  GuestFits,
  CountersFit,
  TimersFit,
  LinesFit,
  RisesFit,
  WallFits,
  NumbersFit,
  ProcessorsFit,
  DevicesFit,
  BackFits,
  BoardFits,
};
ghost use Rattle.save_state.specs.Reading.{board_in};
ghost use Rattle.save_state.specs.Table.{fault_of};
ghost use Rattle.save_state.specs.Writing.{bytes_of};

use crate::apics::put_apics;
use crate::appending::{put_counter, put_line, put_processor, put_timer};
use crate::messages::put_messages;
use crate::reference::put_references;
use crate::sizes::{counts_of, size_of};
use board_core::{BoardState, timers_of};
use board_devices::DeviceParts;
use byte_table::{flag_byte, put, put_2, put_4, put_8};
use clk_units::NoMemory;
use std::alloc::Global;

/// 'CLKBOARD', as a number of 8 bytes, the lowest first.
pub(crate) const MAGIC: u64 = 0x4452_414f_424b_4c43;

/// The bytes of a board, in one allocation of their number. They have no fault, and `decode` gives the board back.
#[tactic(auto, using(crate::proofs::RoundTrip::round_trip))]
pub fn encode(alloc: Global, state: &BoardState) -> Result<Vec<u8>, NoMemory>
    ensures bytes { IfOk result (λ bytes. bytes.items ≡ bytes_of state.now) }
    ensures valid { IfOk result (λ bytes. fault_of bytes.items ≡ None) }
    ensures reads_back { IfOk result (λ bytes. board_in bytes.items ≡ state.now) }
{
    match Vec::with_capacity(alloc, size_of(state.format(), state.cpus())) {
        Ok(mut out) => {
            put_board(&mut out, state, &state.device_parts())?;
            Ok(out)
        }
        Err(_) => Err(NoMemory),
    }
}

/// Appends a board.
#[tactic(auto, using(crate::proofs::Written::board_written), unfolding(crate::specs::Writing::bytes_of))]
fn put_board(out: &mut Vec<u8>, b: &BoardState, d: &DeviceParts) -> Result<(), NoMemory>
    requires devices { d.now ≡ devices_in b.now }
    requires numbers { NumbersFit d.now }
    requires timers { b.now.hpet.timers ≡ timers_of b.now.format }
    requires cpus { b.now.cpus ≤ 64 }
    ensures bytes { OnOk result (out.new.items ≡ out.old.items ++ bytes_of b.now) }
    ensures fit { OnOk result (BoardFits b.now) }
{
    put_front(out, b, d)?;
    put_devices(out, b.format(), d)?;
    put_back(out, b, d)
}

/// Appends all before the 8254.
#[tactic(auto, using(crate::proofs::Written::lists_written))]
fn put_front(out: &mut Vec<u8>, b: &BoardState, d: &DeviceParts) -> Result<(), NoMemory>
    requires { d.now ≡ devices_in b.now }
    ensures bytes { OnOk result (out.new.items ≡ out.old.items ++ write front b.now) }
    ensures host { OnOk result (HostFits b.now) }
    ensures guest { OnOk result (GuestFits b.now) }
{
    put_head(out, b)?;
    put_host(out, b)?;
    put_guest(out, b, d)?;
    put_policies(out, d)
}

/// Appends the devices and their tick lines.
#[tactic(auto, using(crate::proofs::Written::lists_written))]
fn put_devices(out: &mut Vec<u8>, format: u8, d: &DeviceParts) -> Result<(), NoMemory>
    requires { d.now.hpet.timers ≡ timers_of format }
    ensures bytes { OnOk result (out.new.items
        ≡ out.old.items ++ write (devices format) (board_with d.now)) }
    ensures fit { OnOk result (DevicesFit (timers_of format) d.now) }
{
    put_counters(out, d)?;
    put_clock(out, d)?;
    put_registers(out, d)?;
    put_timers(out, format, d)?;
    put_lines(out, format, d)
}

/// Appends what follows the tick lines.
#[tactic(auto, using(crate::proofs::Written::lists_written))]
fn put_back(out: &mut Vec<u8>, b: &BoardState, d: &DeviceParts) -> Result<(), NoMemory>
    requires devices { d.now ≡ devices_in b.now }
    requires cpus { b.now.cpus ≤ 64 }
    ensures bytes { OnOk result (out.new.items
        ≡ out.old.items ++ write (back b.now.format b.now.cpus) b.now) }
    ensures fit { OnOk result (BackFits b.now) }
{
    put_rises(out, b)?;
    put_wall(out, b)?;
    put_processors(out, b)?;
    put_apics(out, b)?;
    put_references(out, b)?;
    put_messages(out, b.format(), d)
}

/// Appends the magic word, the version and the number of processors.
#[tactic(auto, unfolding(crate::specs::Fields::head, byte_table::specs::Kinds::plain))]
fn put_head(out: &mut Vec<u8>, b: &BoardState) -> Result<(), NoMemory>
    ensures { OnOk result (out.new.items ≡ out.old.items ++ write head b.now) }
{
    put_8(out, MAGIC)?;
    put_2(out, u16::from(b.format()))?;
    put_2(out, u16::from(b.cpus()))
}

/// Appends the anchor and the greatest count.
#[tactic(auto, unfolding(crate::specs::Fields::host, byte_table::specs::Kinds::plain))]
fn put_host(out: &mut Vec<u8>, b: &BoardState) -> Result<(), NoMemory>
    ensures bytes { OnOk result (out.new.items ≡ out.old.items ++ write host b.now) }
    ensures fits { OnOk result (HostFits b.now) }
{
    let anchor = b.anchor();
    put_8(out, anchor.khz)?;
    put_8(out, anchor.start)?;
    put_8(out, anchor.base_ns)?;
    put_8(out, b.host())
}

/// Appends the guest's rate, the number of accesses, the greatest reading and the time between catch-up points.
#[tactic(auto, unfolding(crate::specs::Fields::guest, byte_table::specs::Kinds::plain))]
fn put_guest(out: &mut Vec<u8>, b: &BoardState, d: &DeviceParts) -> Result<(), NoMemory>
    requires { d.now ≡ devices_in b.now }
    ensures bytes { OnOk result (out.new.items ≡ out.old.items ++ write guest b.now) }
    ensures fits { OnOk result (GuestFits b.now) }
{
    put_8(out, b.guest_khz())?;
    put_8(out, b.accesses())?;
    put_8(out, b.greatest())?;
    put_8(out, d.slew_ns)
}

/// Appends the policies.
#[tactic(auto, unfolding(crate::specs::Fields::policies, byte_table::specs::Kinds::plain))]
fn put_policies(out: &mut Vec<u8>, d: &DeviceParts) -> Result<(), NoMemory>
    ensures { OnOk result (out.new.items ≡ out.old.items ++ write policies (board_with d.now)) }
{
    let pit = d.ticks[0].policy.byte();
    let rtc = d.ticks[1].policy.byte();
    let hpet = d.ticks[2].policy.byte();
    put(out, &[pit, rtc, hpet])
}

/// Appends the counters of the 8254.
#[tactic(auto, unfolding(crate::specs::Fields::counters, byte_table::specs::Kinds::blocks))]
fn put_counters(out: &mut Vec<u8>, d: &DeviceParts) -> Result<(), NoMemory>
    ensures bytes { OnOk result (out.new.items ≡ out.old.items ++ write counters (board_with d.now)) }
    ensures fit { OnOk result (CountersFit d.now.pit) }
{
    for k in 0..3 {
        put_counter(out, &d.pit.counter(k))?;
    }
    Ok(())
}

/// Appends speaker data and the MC146818.
#[tactic(auto, using(crate::proofs::Written::bytes_written), unfolding(crate::specs::Fields::clock, byte_table::specs::Kinds::plain, byte_table::specs::Codes::rows))]
fn put_clock(out: &mut Vec<u8>, d: &DeviceParts) -> Result<(), NoMemory>
    ensures { OnOk result (out.new.items ≡ out.old.items ++ write clock (board_with d.now)) }
{
    put(out, &[flag_byte(d.pit.speaker), d.rtc.index])?;
    put(out, &d.rtc.bytes)?;
    put_2(out, d.rtc.d)?;
    put(out, &[flag_byte(d.rtc.cycle)])
}

/// Appends the registers of the HPET.
#[tactic(auto, unfolding(crate::specs::Fields::registers, byte_table::specs::Kinds::plain))]
fn put_registers(out: &mut Vec<u8>, d: &DeviceParts) -> Result<(), NoMemory>
    ensures { OnOk result (out.new.items
        ≡ out.old.items ++ write registers (board_with d.now)) }
{
    put(out, &[d.hpet.config, d.hpet.status])?;
    put_8(out, d.hpet.counter)
}

/// Appends the timers of the HPET.
#[tactic(auto, unfolding(crate::specs::Fields::timers, byte_table::specs::Kinds::blocks))]
fn put_timers(out: &mut Vec<u8>, format: u8, d: &DeviceParts) -> Result<(), NoMemory>
    requires { d.now.hpet.timers ≡ timers_of format }
    ensures bytes { OnOk result (out.new.items
        ≡ out.old.items ++ write (timers (timers_of format)) (board_with d.now)) }
    ensures fit { OnOk result (TimersFit d.now.hpet) }
{
    for k in 0..timers_of(format) {
        put_timer(out, &d.hpet.timer[k as usize])?;
    }
    Ok(())
}

/// Appends the tick lines.
#[tactic(auto, unfolding(crate::specs::Fields::lines, byte_table::specs::Kinds::blocks))]
fn put_lines(out: &mut Vec<u8>, format: u8, d: &DeviceParts) -> Result<(), NoMemory>
    ensures bytes { OnOk result (out.new.items
        ≡ out.old.items ++ write (lines (timers_of format)) (board_with d.now)) }
    ensures fit { OnOk result (LinesFit (timers_of format) d.now) }
{
    for k in 0..timers_of(format) + 2 {
        put_line(out, &d.ticks[k as usize])?;
    }
    Ok(())
}

/// Appends the counts of rises, which format 1 doesn't have.
#[tactic(auto, using(crate::proofs::Written::rises_written), unfolding(crate::specs::Fields::rises, byte_table::specs::Codes::rows, byte_table::specs::Kinds::plain))]
fn put_rises(out: &mut Vec<u8>, b: &BoardState) -> Result<(), NoMemory>
    ensures bytes { OnOk result (out.new.items
        ≡ out.old.items ++ write (rises (counts_of b.now.format)) b.now) }
    ensures fit { OnOk result (RisesFit b.now) }
{
    let rises = b.rises();
    for k in 0..counts_of(b.format()) {
        put_8(out, rises[k as usize])?;
    }
    Ok(())
}

/// Appends the wall clock.
#[tactic(auto, unfolding(crate::specs::Fields::wall, byte_table::specs::Kinds::plain))]
fn put_wall(out: &mut Vec<u8>, b: &BoardState) -> Result<(), NoMemory>
    ensures bytes { OnOk result (out.new.items ≡ out.old.items ++ write wall b.now) }
    ensures fits { OnOk result (WallFits b.now) }
{
    put_8(out, b.wall_number())?;
    put_4(out, b.wall_version())?;
    put_4(out, b.wall_sec())?;
    put_4(out, b.wall_nsec())
}

/// Appends the processors.
#[tactic(auto, unfolding(crate::specs::Fields::processors, byte_table::specs::Kinds::blocks))]
fn put_processors(out: &mut Vec<u8>, b: &BoardState) -> Result<(), NoMemory>
    requires { b.now.cpus ≤ 64 }
    ensures bytes { OnOk result (out.new.items ≡ out.old.items ++ write (processors b.now.cpus) b.now) }
    ensures fit { OnOk result (ProcessorsFit b.now) }
    ensures places { length b.now.processors ≡ 64 }
{
    let processors = b.processors();
    for k in 0..b.cpus() {
        put_processor(out, &processors[k as usize])?;
    }
    Ok(())
}
