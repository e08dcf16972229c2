//! The numbers of the ports of a PC's timer.

ghost use Rattle.std.specs.Prelude.{◌≡◌};
ghost use Rattle.pit_readback.specs.Ports.{is_pit_port};

/// The port of counter 0; those of counters 1 and 2 follow (Intel 8254 data sheet, at the PC's base address 40h).
pub const COUNTER_PORT: u8 = 0x40;

/// The control port: control words, latches and read-back commands (Intel 8254 data sheet).
pub const CONTROL_PORT: u8 = 0x43;

/// The system control port of the PC AT: GATE and OUT of counter 2, and the speaker.
pub const SYSTEM_PORT: u8 = 0x61;

/// Whether a port is one of the timer's: 40h to 43h, and 61h.
#[inline(always)]
pub fn is_pit_port(port: u8) -> bool
    ensures { result ≡ is_pit_port port }
{
    (COUNTER_PORT <= port && port <= CONTROL_PORT) || port == SYSTEM_PORT
}
