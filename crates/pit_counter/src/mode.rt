//! The programmed bits of a control word: D5 and D4 how the count is written and read, D3 to D1 the
//! mode, D0 the number system. Intel 8254 data sheet, "Control Word Format".

ghost use Rattle.std.specs.Prelude.{◌≡◌};
ghost use Rattle.pit_counter.specs.Mode.{
  mode_of,
  access_of,
  is_bcd,
  is_terminal,
  is_rate,
  is_square,
  is_periodic,
  has_trigger,
  has_strobe,
  takes_two,
};

use clk_units::bit;

/// The six modes of a counter.
#[derive(Clone, Copy, Debug, PartialEq, Eq)]
pub enum Mode {
    /// Mode 0, interrupt on terminal count.
    TerminalCount,
    /// Mode 1, hardware retriggerable one-shot.
    OneShot,
    /// Mode 2, rate generator.
    RateGenerator,
    /// Mode 3, square wave mode.
    SquareWave,
    /// Mode 4, software triggered strobe.
    SoftwareStrobe,
    /// Mode 5, hardware triggered strobe.
    HardwareStrobe,
}

/// Which bytes of a count are written and read.
#[derive(Clone, Copy, Debug, PartialEq, Eq)]
pub enum Access {
    /// The low byte alone, the high one being 0.
    LowByte,
    /// The high byte alone, the low one being 0.
    HighByte,
    /// The low byte and then the high one.
    LowThenHigh,
}

/// The mode of the programmed bits.
#[tactic(auto, unfolding(crate::specs::Mode::mode_of))]
pub fn mode_of(bits: u8) -> Mode
    ensures { result ≡ mode_of bits }
{
    match bits / 2 % 8 {
        0 => Mode::TerminalCount,
        1 => Mode::OneShot,
        2 | 6 => Mode::RateGenerator,
        3 | 7 => Mode::SquareWave,
        4 => Mode::SoftwareStrobe,
        _ => Mode::HardwareStrobe,
    }
}

/// How the programmed bits say that the count is written and read.
#[tactic(auto, unfolding(crate::specs::Mode::access_of))]
pub fn access_of(bits: u8) -> Access
    ensures { result ≡ access_of bits }
{
    match bits / 16 % 4 {
        1 => Access::LowByte,
        2 => Access::HighByte,
        _ => Access::LowThenHigh,
    }
}

/// Whether the programmed bits say that the count is in BCD.
#[tactic(auto, unfolding(crate::specs::Mode::is_bcd))]
pub fn is_bcd(bits: u8) -> bool
    ensures { result ≡ is_bcd bits }
{
    bit(0, bits as u64)
}

impl Mode {
    /// Mode 0.
    pub fn is_terminal(self) -> bool
        ensures { result ≡ is_terminal self }
    {
        matches!(self, Mode::TerminalCount)
    }

    /// Mode 2.
    pub fn is_rate(self) -> bool
        ensures { result ≡ is_rate self }
    {
        matches!(self, Mode::RateGenerator)
    }

    /// Mode 3.
    pub fn is_square(self) -> bool
        ensures { result ≡ is_square self }
    {
        matches!(self, Mode::SquareWave)
    }

    /// Modes 2 and 3, which load the count again and again.
    pub fn is_periodic(self) -> bool
        ensures { result ≡ is_periodic self }
    {
        matches!(self, Mode::RateGenerator | Mode::SquareWave)
    }

    /// Modes 1, 2, 3 and 5, in which a rise of GATE is a trigger.
    pub fn has_trigger(self) -> bool
        ensures { result ≡ has_trigger self }
    {
        !matches!(self, Mode::TerminalCount | Mode::SoftwareStrobe)
    }

    /// Modes 4 and 5, in which OUT is low for one pulse at the end of a count.
    pub fn has_strobe(self) -> bool
        ensures { result ≡ has_strobe self }
    {
        matches!(self, Mode::SoftwareStrobe | Mode::HardwareStrobe)
    }
}

impl Access {
    /// Both bytes of the count are written and read.
    pub fn takes_two(self) -> bool
        ensures { result ≡ takes_two self }
    {
        matches!(self, Access::LowThenHigh)
    }
}
