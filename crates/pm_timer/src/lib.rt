//! The power management timer of ACPI (ACPI specification, version 6, sections 4.8.3.1 and 4.8.3.3): a count
//! of 24 or 32 bits that goes up by one at 3,579,545 Hz. Whenever its most significant bit changes, TMR_STS of
//! the PM1 status register is set; while that is set and TMR_EN of the PM1 enable register is too, the
//! interrupt line, line 9 of a PC, is up.
//!
//! The three registers are a block of twelve bytes, read and written by offset and width. The other bits of
//! PM1_STS and PM1_EN, and PM1_CNT with SCI_EN, are the monitor's, and so is where the block lies.
//!
//! ```text
//! let mut timer = PmTimer::at_power_on(24, 0x7f_fffe);
//! timer.write(2, 2, 1);                   // TMR_EN
//! timer.first_rise() == Some(2)           // the count becomes 80_0000h
//! timer.pulses(3) == Some(2)
//! timer.read(8, 4) == 0x80_0001           // PM_TMR
//! timer.read(0, 2) == 1                   // TMR_STS: line 9 is up
//! timer.write(0, 2, 1);                   // a written 1 clears it
//! timer.read(0, 2) == 0
//! ```
#![tactic(auto)]

mod parts;
mod registers;
mod stretch;
mod timer;

pub use parts::PmParts;
pub use timer::{PM_HZ, PmTimer};
