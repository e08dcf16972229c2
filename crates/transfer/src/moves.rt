//! A move of a board.
ghost use Rattle.std.specs.Prelude.{
  ◌≡◌,
  ℕ,
  ◌*◌,
  ◌/◌,
  ◌<◌,
  ◌≤◌,
  None,
  Some,
  IfErr,
  IfOk,
  OnOk,
  length,
};
ghost use Rattle.std.specs.List.{All};
ghost use Rattle.clk_units.specs.Ranges.{IsKhz};
ghost use Rattle.irq_edges.specs.Lines.{IsOfLine};
ghost use Rattle.board_devices.specs.Run.{run};
ghost use Rattle.board_core.specs.Time.{devices_in, now_of};
ghost use Rattle.board_core.specs.Tsc.{processor_at, tsc_read};
ghost use Rattle.board_core.specs.Conditions.{AreRates};
ghost use Rattle.clk_units.specs.declared.ranges.TheConstants.{RANGE_NS};
ghost use Rattle.board_core.specs.Reanchor.{reanchored};
ghost use Rattle.transfer.specs.Move.{counts_in, offset_for, tsc_after_gap, tsc_moved, published_below, moved_to, gap_bursts, move_fault};
ghost use Rattle.board_types.specs.declared.parts.TheConstants.{LAST_VERSION};

use crate::outcome::Moved;
use board_core::{BoardParts, BoardState};
use board_meters::MoveFault;
use pvclock_page::{GUEST_STOPPED, TSC_STABLE};
use tsc_scale::{Tsc, ratio, tsc_by};

/// The flags of a page that a move publishes: a stable TSC, and a guest that was stopped.
const MOVED_FLAGS: u8 = TSC_STABLE | GUEST_STOPPED;

/// The board on a host whose counter runs at `khz`, 100,000 to 10,000,000, and counts `start` when the gap, in
/// nanoseconds, is over. Each TSC goes on by the gap's counts, rounded down, and each page, enabled or not, is
/// published at `start`, from format 4 on the reference page after those of the processors. All else is kept,
/// TSC_ADJUST and the greatest reading among it, and `state` stays as it is.
#[tactic(auto, unfolding(crate::specs::Move::moved_to))]
pub fn moved(state: &BoardState, khz: u64, start: u64, gap: u64) -> Result<Moved, MoveFault>
    requires { IsKhz khz }
    ensures refused { IfErr result (λ e. move_fault gap state.now ≡ Some e) }
    ensures taken { OnOk result (move_fault gap state.now ≡ None) }
    ensures state { IfOk result (λ m. m.state ≡ moved_to khz start gap state.now) }
    ensures edges { IfOk result (λ m. m.edges
        ≡ (run (now_of state.now) gap (devices_in state.now)).edges) }
    ensures of_lines { IfOk result (λ m. All IsOfLine m.edges) }
    ensures few { IfOk result (λ m. length m.edges ≤ 6) }
    ensures bursts { IfOk result (λ m. m.bursts ≡ gap_bursts gap state.now) }
    // A TSC that is read at count `start` has gone on from its value at the greatest count.
    ensures tscs { IfOk result (λ m. (k : ℕ) → k < state.now.cpus
        → tsc_read m.state.anchor m.state.guest_khz start (processor_at m.state k)
        ≡ tsc_after_gap state.now gap k) }
{
    state.tally().admit_move(gap)?;
    let from = state.parts();
    let mut board = *state;
    let ran = board.reanchor(khz, start, gap);
    publish_all(&mut board, &from, khz, start, gap);
    board.publish_hv();
    Ok(Moved {
        state: board,
        edges: ran.edges,
        bursts: ran.bursts,
    })
}

/// Lets the TSC of each processor go on, and publishes its page.
fn publish_all(board: &mut BoardState, from: &BoardParts, khz: u64, start: u64, gap: u64)
    requires rates { AreRates from.now.anchor from.now.guest_khz }
    requires rate { IsKhz khz }
    requires gap { gap < RANGE_NS }
    requires cpus { from.now.cpus ≤ 64 }
    requires board { board.old ≡ reanchored khz start gap from.now }
    requires fresh { (k : ℕ) → k < from.now.cpus → (processor_at from.now k).version < LAST_VERSION }
    ensures { board.new ≡ published_below from.now khz start gap from.now.cpus board.old }
{
    for cpu in 0..from.cpus {
        let tsc = tsc_moved(from, khz, start, gap, cpu);
        board.publish(cpu, tsc, MOVED_FLAGS);
    }
}

/// The TSC of a processor after the gap, at count `start` of the new host.
fn tsc_moved(from: &BoardParts, khz: u64, start: u64, gap: u64, cpu: u8) -> Tsc
    requires rates { AreRates from.now.anchor from.now.guest_khz }
    requires rate { IsKhz khz }
    requires gap { gap < RANGE_NS }
    requires cpu { cpu < 64 }
    ensures { result ≡ tsc_moved from.now khz start gap cpu }
{
    let p = from.processors[cpu as usize];
    let before = tsc_by(p.offset, from.host, ratio(from.guest_khz, from.anchor.khz));
    let v = before.wrapping_add(counts_in(from.guest_khz, gap));
    Tsc {
        offset: offset_for(v, start, ratio(from.guest_khz, khz)),
        adjust: p.adjust,
    }
}

/// The counts of the guest's TSC in a gap.
fn counts_in(guest_khz: u64, gap: u64) -> u64
    requires rate { IsKhz guest_khz }
    requires gap { gap < RANGE_NS }
    ensures { result ≡ counts_in guest_khz gap }
{
    (u128::from(gap) * u128::from(guest_khz) / 1_000_000) as u64
}

/// The offset with which a TSC is `v` at count `h`.
fn offset_for(v: u64, h: u64, ratio: u64) -> u64
    ensures { result ≡ offset_for v h ratio }
{
    v.wrapping_sub(tsc_by(0, h, ratio))
}
