//! The fields of a divider, the conditions on them, and what writes make of them.

ghost use Rattle.std.specs.Prelude.{◌≡◌, ◌↔◌, IsTrue};
ghost use Rattle.rtc_cycle.specs.Divider.{uip_of, with_dv as dv_written, with_set as set_written};
ghost use Rattle.rtc_cycle.specs.Parts.{IsDivider};

/// The divider's pulses a second: it counts from 0 to one below.
pub(crate) const PULSES: u16 = 32_768;

/// Where the divider is held while it doesn't run, and where it is at power on (own).
pub(crate) const HELD: u16 = 16_384;

/// The bits DV of register A at which the divider runs with a crystal of 32,768 Hz.
pub(crate) const RUNNING: u8 = 2;

/// The pulse of the second at which an update cycle ends: 1,984 microseconds.
pub(crate) const CYCLE_END: u16 = 65;

/// From this pulse of the second on UIP shows the coming cycle: 244 microseconds, which are 8 pulses.
const CYCLE_NEAR: u16 = 32_760;

/// All fields of a divider.
#[repr(C)]
#[derive(Clone, Copy, Debug, PartialEq, Eq)]
pub struct DividerParts {
    /// The divider, 0 to 32,767.
    pub d: u16,
    /// Whether an update cycle is in progress.
    pub cycle: bool,
    /// The bits DV of register A, 0 to 7.
    pub dv: u8,
    /// The rate RS of register A, 0 to 15.
    pub rs: u8,
    /// The bit SET of register B.
    pub set: bool,
}

/// Whether the fields are those of a divider.
pub(crate) fn is_valid(p: DividerParts) -> bool
    ensures { IsTrue result ↔ IsDivider p }
{
    p.d < PULSES
        && (p.dv == RUNNING || p.d == HELD)
        && (!p.cycle || (p.dv == RUNNING && !p.set && p.d < CYCLE_END))
        && p.dv <= 7
        && p.rs <= 15
}

/// Whether register A shows UIP.
pub(crate) fn is_updating(p: DividerParts) -> bool
    ensures { result ≡ uip_of p }
{
    p.cycle || (p.d >= CYCLE_NEAR && !p.set)
}

/// The fields after DV is written.
pub(crate) fn with_dv(p: DividerParts, dv: u8) -> DividerParts
    ensures { result ≡ dv_written dv p }
{
    if dv == RUNNING {
        DividerParts { dv, ..p }
    } else {
        DividerParts {
            dv,
            d: HELD,
            cycle: false,
            ..p
        }
    }
}

/// The fields after SET is written.
pub(crate) fn with_set(p: DividerParts, on: bool) -> DividerParts
    ensures { result ≡ set_written on p }
{
    DividerParts {
        set: on,
        cycle: p.cycle && !on,
        ..p
    }
}
