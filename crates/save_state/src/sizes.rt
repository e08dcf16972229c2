//! How many blocks of each kind a saved state has, and how many bytes.
ghost use Rattle.std.specs.Prelude.{◌≡◌, ◌≤◌};
ghost use Rattle.board_core.specs.Apics.{apics_of};
ghost use Rattle.byte_table.specs.Fold.{size_of};
ghost use Rattle.save_state.specs.Fields.{counts_of, references_of, messages_of, fields_of};

use board_core::{APIC_FORMAT, HV_FORMAT, timers_of};
use board_types::has_messages;

/// How many counts of rises a format has.
pub(crate) fn counts_of(format: u8) -> u8
    ensures value { result ≡ counts_of format }
    ensures few { result ≤ 6 }
{
    if format >= 2 { 6 } else { 0 }
}

/// How many reference pages of Hyper-V a format has.
pub(crate) fn references_of(format: u8) -> u8
    ensures value { result ≡ references_of format }
    ensures small { result ≤ 1 }
{
    if format >= HV_FORMAT { 1 } else { 0 }
}

/// How many timers of local APICs a board with so many processors has.
pub(crate) fn apics_of(format: u8, cpus: u8) -> u8
    ensures value { result ≡ apics_of format cpus }
    ensures few { result ≤ cpus }
{
    if format >= APIC_FORMAT { cpus } else { 0 }
}

/// How many timers of the HPET send messages in a format.
pub(crate) fn messages_of(format: u8) -> u8
    ensures value { result ≡ messages_of format }
    ensures few { result ≤ 8 }
{
    if has_messages(format) { 8 } else { 0 }
}

/// How many bytes a board with so many processors has.
#[tactic(auto, using(crate::proofs::Formats::takes))]
pub(crate) fn size_of(format: u8, cpus: u8) -> usize
    requires { cpus ≤ 64 }
    ensures { result ≡ size_of (fields_of format cpus) }
{
    let timers = usize::from(timers_of(format));
    // all that each board has; its timers and tick lines; what a format has more
    let each = 79 + 42 + 133 + 10 + 20 + 50 * usize::from(cpus);
    let lines = 18 * timers + 33 * (timers + 2) + 8 * usize::from(counts_of(format));
    each + lines
        + 55 * usize::from(apics_of(format, cpus))
        + 37 * usize::from(references_of(format))
        + 9 * usize::from(messages_of(format))
}
