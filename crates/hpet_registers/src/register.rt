//! The register map.

ghost use Rattle.std.specs.Prelude.{◌≡◌, ◌≤◌, IsTrue};
ghost use Rattle.hpet_registers.specs.Register.{timer_register, register_at, IsRegister};
ghost use Rattle.hpet_registers.specs.Access.{is_access_width, is_effective};

/// A register of 8 bytes; a timer's has the timer's number.
#[derive(Clone, Copy, Debug, PartialEq, Eq)]
pub enum Register {
    /// General capabilities and identification, read only.
    Capabilities,
    /// General configuration.
    Configuration,
    /// General interrupt status.
    Status,
    /// The main counter.
    MainCounter,
    /// Configuration and capabilities of a timer.
    TimerConfig(u8),
    /// Comparator of a timer.
    TimerComparator(u8),
    /// Message register of a timer.
    TimerMessage(u8),
    /// A place without a register: it reads 0 and takes no write.
    Reserved,
}

/// The register at `place` in the block of timer `timer`.
fn timer_register(timers: u8, messages: bool, timer: u8, place: u16) -> Register
    ensures value { result ≡ timer_register timers messages timer place }
    ensures range { IsRegister timers messages result }
{
    if timer >= timers {
        return Register::Reserved;
    }
    match place {
        0x00 => Register::TimerConfig(timer),
        0x08 => Register::TimerComparator(timer),
        0x10 if messages => Register::TimerMessage(timer),
        _ => Register::Reserved,
    }
}

/// The register at `offset`.
pub(crate) fn register_at(timers: u8, messages: bool, offset: u16) -> Register
    requires { offset ≤ 1023 }
    ensures value { result ≡ register_at timers messages offset }
    ensures range { IsRegister timers messages result }
{
    match offset {
        0x000 => Register::Capabilities,
        0x010 => Register::Configuration,
        0x020 => Register::Status,
        0x0f0 => Register::MainCounter,
        0x100.. => {
            let timer = ((offset - 0x100) / 0x20) as u8;
            timer_register(timers, messages, timer, offset % 0x20)
        }
        _ => Register::Reserved,
    }
}

/// Whether an access reaches a register.
pub(crate) fn is_effective(offset: u16, width: u8) -> bool
    requires { IsTrue (is_access_width width) }
    ensures { result ≡ is_effective offset width }
{
    (width == 4 || width == 8) && offset % width as u16 == 0
}
