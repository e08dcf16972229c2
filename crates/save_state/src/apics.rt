//! The timers of local APICs in a saved state: written, read, and their first fault.
ghost use Rattle.std.specs.Prelude.{◌≡◌, ℕ, ◌+◌, ◌<◌, ◌≤◌, ◌^◌, ◌++◌, OnOk, length, slice_index_or};
ghost use Rattle.std.specs.Result.{result_err};
ghost use Rattle.clk_units.specs.Ranges.{IsKhz};
ghost use Rattle.lapic_timer.specs.Parts.{
  lvt_valid,
  divide_valid,
  initial_valid,
  current_valid,
  phase_valid,
  deadline_valid,
};
ghost use Rattle.board_types.specs.declared.parts.TheConstants.{MOST_ACCESSES};
ghost use Rattle.board_core.specs.Apics.{apics_of};
ghost use Rattle.board_core.specs.Time.{now_of};
ghost use Rattle.host_counter.specs.Time.{HasTime};
ghost use Rattle.byte_table.specs.Fold.{write, read, fault_in, size_of};
ghost use Rattle.byte_table.specs.Reading.{IsPast, Passes};
ghost use Rattle.save_state.specs.Fields.{apic_timer, apic, no_apic, apic_pairs, apics};
ghost use Rattle.save_state.specs.private.Cursor.{read_at};
ghost use Rattle.save_state.specs.private.Fits.{ApicTimerFits, LineFits, ApicsFit};

use crate::appending::put_line;
use crate::fault::StateFault;
use crate::pieces::ticks_in;
use crate::sizes::apics_of;
use crate::table::{check_rows, field, flag_field};
use crate::whole::NO_LINE;
use board_core::{BoardParts, BoardState};
use byte_table::{Fields, put, put_4, put_8};
use clk_units::NoMemory;
use lapic_timer::ApicParts;
use tick_policy::{Policy, TickParts, lost_valid, queue_valid};

/// What the place of a timer that isn't there holds.
const NO_TIMER: ApicParts = ApicParts {
    lvt: 0,
    divide: 0,
    initial: 0,
    current: 0,
    phase: 0,
    deadline: 0,
};

/// Appends the timers with their tick lines, of which formats before `APIC_FORMAT` have none.
#[tactic(auto, unfolding(crate::specs::Fields::apics, byte_table::specs::Kinds::blocks))]
pub(crate) fn put_apics(out: &mut Vec<u8>, b: &BoardState) -> Result<(), NoMemory>
    requires { b.now.cpus ≤ 64 }
    ensures bytes { OnOk result (out.new.items
        ≡ out.old.items ++ write (apics (apics_of b.now.format b.now.cpus)) b.now) }
    ensures fit { OnOk result (ApicsFit b.now) }
{
    for k in 0..apics_of(b.format(), b.cpus()) {
        put_apic(out, &b.apic(k), &b.apic_tick(k))?;
    }
    Ok(())
}

/// Appends timer `k` with its tick line, whichever it is.
fn put_apic(out: &mut Vec<u8>, timer: &ApicParts, line: &TickParts) -> Result<(), NoMemory>
    ensures bytes { (k : ℕ) → OnOk result (out.new.items ≡ out.old.items
        ++ write (apic k) (timer.now, line.now)) }
    ensures timer { OnOk result (ApicTimerFits timer.now) }
    ensures line { OnOk result (LineFits line.now) }
{
    put_timer(out, timer)?;
    put_line(out, line)
}

/// Appends a timer.
#[tactic(auto, unfolding(crate::specs::Fields::apic_timer, byte_table::specs::Kinds::plain))]
fn put_timer(out: &mut Vec<u8>, t: &ApicParts) -> Result<(), NoMemory>
    ensures bytes { (l : TickParts) → OnOk result (out.new.items ≡ out.old.items
        ++ write apic_timer (t.now, l)) }
    ensures fits { OnOk result (ApicTimerFits t.now) }
{
    put_4(out, t.lvt)?;
    put(out, &[t.divide])?;
    put_4(out, t.initial)?;
    put_4(out, t.current)?;
    put(out, &[t.phase])?;
    put_8(out, t.deadline)
}

/// The timers, and their tick lines.
#[tactic(auto, using(crate::proofs::Formats::takes))]
pub(crate) fn apics_in(
    fields: &mut Fields,
    format: u8,
    cpus: u8,
) -> ([ApicParts; 64], [TickParts; 64])
    requires place { fields.old.place < 2 ^ 40 }
    requires few { cpus ≤ 64 }
    ensures timers { result.0 ≡ (read_at (apics (apics_of format cpus)) fields.old).apic }
    ensures lines { result.1 ≡ (read_at (apics (apics_of format cpus)) fields.old).apic_ticks }
    ensures next { IsPast (size_of (apics (apics_of format cpus))) fields.old fields.new }
    ensures near { fields.new.place ≤ fields.old.place + 3520 }
{
    let mut timers = [NO_TIMER; 64];
    let mut lines = [NO_LINE; 64];
    for k in 0..apics_of(format, cpus) {
        timers[k as usize] = timer_in(fields);
        lines[k as usize] = ticks_in(fields, Policy::Discard);
    }
    (timers, lines)
}

/// A timer.
#[tactic(auto, unfolding(crate::specs::Fields::apic_timer, byte_table::specs::Kinds::plain))]
fn timer_in(fields: &mut Fields) -> ApicParts
    requires { fields.old.place < 2 ^ 50 }
    ensures value { result ≡ (read apic_timer fields.old.place fields.old.bytes.now no_apic).0 }
    ensures next { IsPast 22 fields.old fields.new }
{
    ApicParts {
        lvt: fields.four(),
        divide: fields.byte(),
        initial: fields.four(),
        current: fields.four(),
        phase: fields.byte(),
        deadline: fields.eight(),
    }
}

/// Goes over the timers and their tick lines, up to their first fault.
#[tactic(auto, unfolding(crate::specs::Fields::apics, byte_table::specs::Kinds::blocks))]
pub(crate) fn check_apics(fields: &mut Fields, b: &BoardParts) -> Result<(), StateFault>
    requires there { fields.old.place ≤ length fields.old.bytes.now }
    requires few { b.now.cpus ≤ 64 }
    requires rate { IsKhz b.now.anchor.khz }
    requires time { HasTime b.now.anchor b.now.host }
    requires accesses { b.now.accesses ≤ MOST_ACCESSES }
    ensures fault { result_err result ≡ fault_in (apics (apics_of b.now.format b.now.cpus)) b.now b.now
        fields.old.place fields.old.bytes.now }
    ensures next { OnOk result (Passes (size_of (apics (apics_of b.now.format b.now.cpus)))
        fields.old fields.new) }
{
    let most = b.anchor.time_of(b.host) + b.accesses;
    for k in 0..apics_of(b.format, b.cpus) {
        check_apic(fields, b, k, most)?;
    }
    Ok(())
}

/// Goes over timer `k` and its tick line, of which `most` ticks are due, at most.
fn check_apic(fields: &mut Fields, b: &BoardParts, k: u8, most: u64) -> Result<(), StateFault>
    requires there { fields.old.place ≤ length fields.old.bytes.now }
    requires k { k < 64 }
    requires most { most ≡ now_of b.now + b.now.accesses }
    ensures fault { result_err result ≡ fault_in (apic k) b.now (slice_index_or (apic_pairs b.now) k no_apic)
        fields.old.place fields.old.bytes.now }
    ensures next { OnOk result (Passes 55 fields.old fields.new) }
{
    let p = &b.apic[k as usize];
    let l = &b.apic_ticks[k as usize];
    let rows = [
        field(4, lvt_valid(p)),
        field(1, divide_valid(p)),
        field(4, initial_valid(p)),
        field(4, current_valid(p)),
        field(1, phase_valid(p)),
        field(8, deadline_valid(p)),
        flag_field(1, true),
        field(8, l.counts.due <= most),
        field(8, true),
        field(8, queue_valid(l)),
        field(8, lost_valid(l)),
    ];
    check_rows(fields, &rows)
}

/// Whether the LVT has kept bits alone and a mode that isn't reserved.
fn lvt_valid(p: &ApicParts) -> bool
    ensures { result ≡ lvt_valid p.now }
{
    let kept = p.lvt % 0x100 + p.lvt / 0x1_0000 % 8 * 0x1_0000;
    kept == p.lvt && p.lvt / 0x2_0000 % 4 < 3
}

/// Whether the divide configuration has kept bits alone.
fn divide_valid(p: &ApicParts) -> bool
    ensures { result ≡ divide_valid p.now }
{
    p.divide % 4 + p.divide / 8 % 2 * 8 == p.divide
}

/// Whether the initial count is 0 in deadline mode.
fn initial_valid(p: &ApicParts) -> bool
    ensures { result ≡ initial_valid p.now }
{
    !p.is_deadline() || p.initial == 0
}

/// Whether the current count is at most the initial one, and in periodic mode 0 only where that is.
fn current_valid(p: &ApicParts) -> bool
    ensures { result ≡ current_valid p.now }
{
    p.current <= p.initial && (!(p.is_periodic() && p.current == 0) || p.initial == 0)
}

/// Whether the phase is below the divisor, and 0 where the current count is.
fn phase_valid(p: &ApicParts) -> bool
    ensures { result ≡ phase_valid p.now }
{
    p.phase < p.divisor() && (p.current != 0 || p.phase == 0)
}

/// Whether the deadline is 0 outside deadline mode.
fn deadline_valid(p: &ApicParts) -> bool
    ensures { result ≡ deadline_valid p.now }
{
    p.is_deadline() || p.deadline == 0
}
