//! The reset of a board, and of each part of it.
ghost use Rattle.std.specs.Prelude.{◌≡◌, ◌≤◌, false, length, map, replicate};
ghost use Rattle.irq_edges.specs.Lines.{line_numbers, changes};
ghost use Rattle.rtc_registers.specs.Parts.{IsRtc};
ghost use Rattle.rtc_registers.specs.Registers.{irqf_of, pie_of};
ghost use Rattle.board_types.specs.Setup.{IsSetup};
ghost use Rattle.board_devices.specs.Lines.{levels};
ghost use Rattle.board_core.specs.Time.{devices_in, now_of};
ghost use Rattle.board_core.specs.Conditions.{IsBoard};
ghost use Rattle.board_reset.specs.Reset.{
  page_off,
  hv_off,
  rtc_reset,
  setup_of,
  after_reset,
};

use board_core::BoardState;
use board_types::{BoardParts, HvParts, ProcessorParts, Setup};
use host_counter::Anchor;
use irq_edges::{EdgeList, changes};
use rtc_registers::RtcParts;

/// Resets the board at its present time, and gives the edges of the lines that were up. It is no access.
/// What becomes of each part is the definition `after_reset`.
pub fn reset(board: &mut BoardState) -> EdgeList
    ensures state { board.new ≡ after_reset board.old }
    ensures edges { result ≡ changes (now_of board.old) line_numbers
        (levels (devices_in board.old)) (levels (devices_in board.new)) }
    ensures down { levels (devices_in board.new) ≡ replicate 6 false }
    ensures few { length result ≤ 6 }
{
    let lines = board.lines();
    let now = board.now();
    if let Some(fresh) = BoardState::of_parts(after_reset(&board.parts())) {
        *board = fresh;
    }
    let mut edges = EdgeList::new();
    changes(lines, board.lines(), now, &mut edges);
    edges
}

/// All fields of a board after a reset.
#[tactic(auto, unfolding(crate::specs::Reset::after_reset))]
fn after_reset(parts: &BoardParts) -> BoardParts
    requires { IsBoard parts.now }
    ensures value { result ≡ after_reset parts.now }
    ensures valid { IsBoard result }
    ensures down { levels (devices_in result) ≡ replicate 6 false }
{
    let fresh = BoardState::power_on(&setup_of(parts)).parts();
    let ticks = fresh.ticks;
    let processors = pages_off(&parts.processors);
    let apic = fresh.apic;
    let apic_ticks = fresh.apic_ticks;
    BoardParts {
        pit: fresh.pit,
        rtc: rtc_reset(&parts.rtc),
        hpet: fresh.hpet,
        ticks,
        processors,
        rises: [0; 6],
        apic,
        apic_ticks,
        hv: hv_off(&parts.hv),
        ..*parts
    }
}

/// A setup of such a board: its rates and policies, and the time 0.
fn setup_of(parts: &BoardParts) -> Setup
    requires { IsBoard parts.now }
    ensures value { result ≡ setup_of parts.now }
    ensures valid { IsSetup result }
{
    Setup {
        anchor: Anchor {
            khz: parts.anchor.khz,
            start: 0,
            base_ns: 0,
        },
        guest_khz: parts.guest_khz,
        cpus: parts.cpus,
        pit: parts.ticks[0].policy,
        rtc: parts.ticks[1].policy,
        hpet: parts.ticks[2].policy,
        slew_ns: parts.slew_ns,
        ..Setup::by_default(parts.format)
    }
}

/// The MC146818 after a reset.
#[tactic(auto, unfolding(crate::specs::Reset::rtc_reset))]
fn rtc_reset(rtc: &RtcParts) -> RtcParts
    requires { IsRtc rtc.now }
    ensures value { result ≡ rtc_reset rtc.now }
    ensures valid { IsRtc result }
    ensures uncounted { pie_of result ≡ false }
    ensures quiet { irqf_of result ≡ false }
{
    let mut bytes = rtc.bytes;
    bytes[0x0b] = bytes[0x0b] / 128 * 128 + bytes[0x0b] % 8;
    bytes[0x0c] = 0;
    RtcParts { bytes, ..*rtc }
}

/// The processors with no page enabled.
fn pages_off(processors: &[ProcessorParts; 64]) -> [ProcessorParts; 64]
    ensures { result ≡ map page_off processors.now }
{
    let mut off = *processors;
    for cpu in 0..64 {
        off[cpu].number = 0;
    }
    off
}

/// The reference page, withdrawn.
fn hv_off(hv: &HvParts) -> HvParts
    ensures { result ≡ hv_off hv.now }
{
    HvParts {
        number: 0,
        scale: 0,
        offset: 0,
        tsc_offset: 0,
        ..*hv
    }
}
